// The control rules, each on the hot numbers by value and the lent open blocks. Where checked code would not let an instruction stand the
// rules are total all the same: with no block to work on a rule goes on to the next place, and with no room for one more it opens none.
// No one state holds both: lent or answered with its blocks, it would bring the hot numbers into memory at each step.
use lanes::Lanes;
use wave::state::Hot;

pub mod aside;
pub mod barrier;
pub mod closing;
pub mod going;
pub mod halting;
pub mod opening;

// After a control instruction: the lanes of fault 5, 0 for none, and the hot numbers. No Result: where BARRIER faults the promise tells the
// hot numbers too, with a depth over 32 as 32.
#[derive(Clone, Copy)]
pub struct Stepped {
    pub barrier: Lanes,
    pub hot: Hot,
}
