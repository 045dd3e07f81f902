// The state of a wave: the hot numbers by value, and the open blocks in one array, outermost first.
ghost use Rattle.std.specs.Prelude.{◌≡◌, min};
ghost use Rattle.lanes.specs.Blocks.{nesting};
ghost use Rattle.wave.specs.Wave.{held, tidied};

use lanes::Lanes;
use lanes::said::{Block, DEEPEST, NESTING};

// How many numbers a block is.
pub const BLOCK_NUMBERS: usize = 6;

// What stands where no block is open.
pub const NO_BLOCK: Block = Block {
    part: 0,
    opener: 0,
    entered: 0,
    aside: 0,
    again: 0,
    left: 0,
};

// The numbers that nearly every step reads or writes. `depth` is how many blocks are open.
#[derive(Clone, Copy)]
pub struct Hot {
    pub place: u32,
    pub active: Lanes,
    pub halted: Lanes,
    pub p1: Lanes,
    pub p2: Lanes,
    pub p3: Lanes,
    pub depth: u32,
}

// A wave's whole state. What stands in `blocks` past the open blocks does not count: nothing allocates, so their count stands beside them.
// A block's part stays a number: any state may be handed in to `resume`, which refuses what does not fit, so a type of three parts would
// ask more of callers.
#[derive(Clone, Copy)]
pub struct State {
    pub hot: Hot,
    pub blocks: [Block; DEEPEST],
}

// A depth over 32 is read as 32.
pub fn depth_of(depth: u32) -> u32
    ensures { result ≡ min depth nesting }
{
    depth.min(NESTING)
}

// The blocks past the open ones become zeros, and a depth over 32 becomes 32, so that every number of the state is fixed by its wave.
#[tactic(auto, using(crate::proofs::Tidying::tidy_end))]
pub fn tidy(h: Hot, blocks: &mut [Block; DEEPEST]) -> Hot
    ensures { held result blocks.new ≡ tidied h blocks.old }
{
    let d = depth_of(h.depth);
    blocks[d as usize..].fill(NO_BLOCK);
    let mut n = h;
    n.depth = d;
    n
}
