// Setting lanes aside in the innermost open loop: BREAK and CONTINUE.
ghost use Rattle.std.specs.Prelude.{◌≡◌, ◌<◌, min, IfSome};
ghost use Rattle.lanes.specs.Blocks.{nesting};
ghost use Rattle.wave.specs.Layout.{opened, over};
ghost use Rattle.wave.specs.Wave.{Does};
ghost use Rattle.control.specs.Rules.{break_rule, continue_rule, to_loop};
ghost use Rattle.control.specs.Search.{loop_at, same, less};

use crate::rules::going::after_place;
use lanes::said::{Block, DEEPEST, LOOP};
use lanes::{Lanes, without};
use wave::state::{Hot, depth_of};

// The outward search through open blocks: the lanes t leave each block inside the innermost loop, whose number is the answer, if a loop
// is open. Page 01 names this form: a loop that yields the number by break.
fn leave_inner(depth: u32, t: Lanes, blocks: &mut [Block; DEEPEST]) -> Option<usize>
    ensures number { result ≡ loop_at (opened blocks.old (min depth nesting)) }
    ensures room { IfSome result (λ l. l < nesting) }
    ensures left { blocks.new ≡ over (to_loop same t (opened blocks.old (min depth nesting))) blocks.old }
{
    let mut i = depth_of(depth) as usize;
    loop {
        if i == 0 {
            break None;
        }
        i -= 1;
        if blocks[i].part == LOOP {
            break Some(i);
        }
        blocks[i].left |= t;
    }
}

// The hot numbers of the next place, where the lanes t are no longer active.
pub(crate) fn without_lanes(h: Hot, t: Lanes) -> Hot
    ensures { result ≡ less t h }
{
    let mut n = h;
    n.place = after_place(h.place);
    n.active = without(h.active, t);
    n.depth = depth_of(h.depth);
    n
}

// BREAK: the lanes t are set aside in the innermost open loop, as broken.
pub(crate) fn break_rule(h: Hot, t: Lanes, blocks: &mut [Block; DEEPEST]) -> Hot
    ensures { Does (break_rule t) h blocks.old result blocks.new }
{
    if let Some(l) = leave_inner(h.depth, t, blocks) {
        blocks[l].aside |= t;
    }
    without_lanes(h, t)
}

// CONTINUE: the lanes t are set aside in the innermost open loop, as continued.
pub(crate) fn continue_rule(h: Hot, t: Lanes, blocks: &mut [Block; DEEPEST]) -> Hot
    ensures { Does (continue_rule t) h blocks.old result blocks.new }
{
    if let Some(l) = leave_inner(h.depth, t, blocks) {
        blocks[l].again |= t;
    }
    without_lanes(h, t)
}
