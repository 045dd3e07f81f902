// Opening a block: IF and LOOP.
ghost use Rattle.wave.specs.Wave.{Does};
ghost use Rattle.control.specs.Rules.{if_rule, loop_rule};

use crate::rules::going::after_place;
use lanes::said::{BEFORE_ELSE, Block, DEEPEST, LOOP, NESTING};
use lanes::{Lanes, without};
use wave::state::{Hot, depth_of};

// IF: the lanes t stay active, the rest of the active lanes wait.
pub(crate) fn if_rule(h: Hot, t: Lanes, blocks: &mut [Block; DEEPEST]) -> Hot
    ensures { Does (if_rule t) h blocks.old result blocks.new }
{
    let d = depth_of(h.depth);
    let wait = without(h.active, t);
    let mut n = h;
    n.place = after_place(h.place);
    n.active = h.active & t;
    n.depth = d;
    if d == NESTING {
        return n;
    }
    blocks[d as usize] = Block {
        part: BEFORE_ELSE,
        opener: h.place,
        entered: h.active,
        aside: wait,
        again: 0,
        left: 0,
    };
    n.depth = d + 1;
    n
}

// LOOP: every active lane enters.
pub(crate) fn loop_rule(h: Hot, blocks: &mut [Block; DEEPEST]) -> Hot
    ensures { Does loop_rule h blocks.old result blocks.new }
{
    let d = depth_of(h.depth);
    let mut n = h;
    n.place = after_place(h.place);
    n.depth = d;
    if d == NESTING {
        return n;
    }
    blocks[d as usize] = Block {
        part: LOOP,
        opener: h.place,
        entered: h.active,
        aside: 0,
        again: 0,
        left: 0,
    };
    n.depth = d + 1;
    n
}
