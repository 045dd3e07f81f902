// The end of a half or of a block: ELSE, ENDIF and ENDLOOP.
ghost use Rattle.wave.specs.Wave.{Does};
ghost use Rattle.control.specs.Rules.{else_rule, endif_rule, endloop_rule};

use crate::rules::going::after_place;
use lanes::said::{AFTER_ELSE, Block, DEEPEST};
use wave::state::{Hot, depth_of};

// ELSE: active and waiting lanes change places.
pub(crate) fn else_rule(h: Hot, blocks: &mut [Block; DEEPEST]) -> Hot
    ensures { Does else_rule h blocks.old result blocks.new }
{
    let d = depth_of(h.depth);
    let mut n = h;
    n.place = after_place(h.place);
    n.depth = d;
    if d == 0 {
        return n;
    }
    let block = &mut blocks[d as usize - 1];
    n.active = block.aside;
    block.part = AFTER_ELSE;
    block.aside = h.active;
    n
}

// ENDIF: the waiting lanes join the active ones.
pub(crate) fn endif_rule(h: Hot, blocks: &mut [Block; DEEPEST]) -> Hot
    ensures { Does endif_rule h blocks.old result blocks.new }
{
    let d = depth_of(h.depth);
    let mut n = h;
    n.place = after_place(h.place);
    n.depth = d;
    if d == 0 {
        return n;
    }
    n.active = h.active | blocks[d as usize - 1].aside;
    n.depth = d - 1;
    n
}

// ENDLOOP: the continued lanes join the active ones; the loop goes round if any is active, and closes if none.
pub(crate) fn endloop_rule(h: Hot, blocks: &mut [Block; DEEPEST]) -> Hot
    ensures { Does endloop_rule h blocks.old result blocks.new }
{
    let d = depth_of(h.depth);
    let mut n = h;
    n.place = after_place(h.place);
    n.depth = d;
    if d == 0 {
        return n;
    }
    let block = blocks[d as usize - 1];
    let go = h.active | block.again;
    if go == 0 {
        n.active = block.aside;
        n.depth = d - 1;
        return n;
    }
    n.place = after_place(block.opener);
    n.active = go;
    blocks[d as usize - 1].again = 0;
    n
}
