// Results of the comparisons of RS1 and RS2, 1 or 0, and the predicate that they make. An arm for each operation, as in `two_operands`: with
// one loop for all, a step takes 1.25 to 1.44 of its time.
ghost use Rattle.std.specs.Prelude.{◌≡◌, ◌<◌};
ghost use Rattle.compute.specs.Registers.{lanes_in};
ghost use Rattle.compute.specs.Lanewise.{compare_lanes};
ghost use Rattle.compute.specs.Values.{predicate_of};

use crate::bank::Bank;
use crate::masks::marked;
use instructions::instr::CompareOp;
use lanes::{ByLane, Lanes, Width};
use operations::compare;

// Whether `op` holds of every lane's RS1 and RS2.
pub(crate) fn compare_results(op: CompareOp, bank: &Bank, rs1: u8, rs2: u8) -> ByLane
    requires { (rs1 < bank.now.shape.registers) × (rs2 < bank.now.shape.registers) }
    ensures { result ≡ compare_lanes op bank.now.shape (lanes_in bank.now.shape bank.now.regs.now) rs1 rs2 }
{
    match op {
        CompareOp::Eq => bank.two_lanes(|a, b| u32::from(compare(CompareOp::Eq, a, b)), rs1, rs2),
        CompareOp::Ne => bank.two_lanes(|a, b| u32::from(compare(CompareOp::Ne, a, b)), rs1, rs2),
        CompareOp::Lt => bank.two_lanes(|a, b| u32::from(compare(CompareOp::Lt, a, b)), rs1, rs2),
        CompareOp::Ge => bank.two_lanes(|a, b| u32::from(compare(CompareOp::Ge, a, b)), rs1, rs2),
    }
}

// The predicate after the lanes `t` wrote their results to it.
pub(crate) fn predicate_after(results: &ByLane, t: Lanes, predicate: Lanes, width: Width) -> Lanes
    ensures { result ≡ predicate_of width.lanes predicate t results.now }
{
    let mut set: Lanes = 0;
    for i in 0..width.lanes {
        set = lanes::union(set, marked(t, i, results[i as usize] == 1));
    }
    lanes::union(lanes::without(predicate, t), set)
}
