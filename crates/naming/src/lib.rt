// The text of an instruction, one line such as `ADD r3, r1, r2 on p2`. It is put into a lent buffer, and is no `Display`: the type is another
// crate's, and a formatter's promise doesn't say when it writes all, which 13 "exactly if" rests on.
#![tactic(auto)]

mod ending;
mod line;
mod names;
mod numerals;
mod operands;

ghost use Rattle.std.specs.Prelude.{◌≡◌, []};
ghost use Rattle.texts.specs.Text.{text_of};
ghost use Rattle.naming.specs.Line.{Adds};
ghost use Rattle.naming.specs.Writing.{written, put_in, text_in};

use ending::{put_guard, put_scope};
use instructions::forms::is_valid;
use instructions::instr::Instr;
use line::Line;
use names::put_name;
use numbers::put_bytes;
use operands::put_operands;
use refusals::{Refusal, Rule, broken};

// A buffer of this length holds every text.
pub const TEXT_ROOM: usize = 48;

// Puts the text of an instruction, as far as it fits the line. The line is lent: one that is handed out is copied, which waits for its bytes to
// be written.
fn put_line(line: &mut Line, instr: Instr)
    ensures { Adds line.old (text_of instr) line.new }
{
    put_name(line, instr.op);
    put_operands(line, instr);
    put_scope(line, instr.scope);
    put_guard(line, instr.guard);
}

// Puts a text at the start of `out`, if it has room, and answers its length.
fn put_whole(text: &[u8], out: &mut [u8]) -> Result<usize, Refusal>
    ensures { written result out.new ≡ put_in text.now out.old }
{
    let n = text.len();
    if out.len() < n {
        return Err(broken(Rule::Short, 0));
    }
    put_bytes(out, 0, text);
    Ok(n)
}

// Puts the text of an instruction at the start of `out`, and answers its length. What stands after it stays; a refusal changes nothing.
pub fn write_text(instr: Instr, out: &mut [u8]) -> Result<usize, Refusal>
    ensures { written result out.new ≡ text_in instr out.old }
{
    if !is_valid(instr) {
        return Err(broken(Rule::NoWords, 0));
    }
    let mut line = Line::new();
    put_line(&mut line, instr);
    put_whole(line.as_bytes(), out)
}
