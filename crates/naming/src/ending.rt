// What follows the operands: the scope and the predicate, each only if it isn't 0.
ghost use Rattle.std.specs.Prelude.{◌≡◌, cond};
ghost use Rattle.texts.specs.Bytes.{ascii};
ghost use Rattle.texts.specs.Text.{scope_text, on_text};
ghost use Rattle.naming.specs.Line.{Adds};

use crate::line::Line;
use instructions::instr::Guard;

// Puts the scope.
pub(crate) fn put_scope(line: &mut Line, scope: u8)
    ensures { Adds line.old (scope_text scope) line.new }
{
    if scope != 0 {
        line.put_numbered(" scope ", scope as u32);
    }
}

// What stands before the predicate.
fn on_mark(negate: bool) -> &'static str
    ensures { result.now ≡ cond negate (ascii " on not p") (ascii " on p") }
{
    if negate { " on not p" } else { " on p" }
}

// Puts the predicate.
pub(crate) fn put_guard(line: &mut Line, guard: Guard)
    ensures { Adds line.old (on_text guard.pred guard.negate) line.new }
{
    if guard.pred != 0 {
        line.put_numbered(on_mark(guard.negate), guard.pred as u32);
    }
}
