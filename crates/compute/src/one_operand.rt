// Results of the operations on RS1 alone. An arm for each operation, as in `two_operands`: with one loop for all, a step takes 1.29 to 1.51
// of its time.
ghost use Rattle.std.specs.Prelude.{◌≡◌, ◌<◌};
ghost use Rattle.compute.specs.Registers.{lanes_in};
ghost use Rattle.compute.specs.Lanewise.{one_lanes};

use crate::bank::Bank;
use instructions::instr::OneOp;
use lanes::ByLane;
use operations::one;

// What `op` gives of every lane's RS1.
pub(crate) fn one_results(op: OneOp, bank: &Bank, rs1: u8) -> ByLane
    requires { rs1 < bank.now.shape.registers }
    ensures { result ≡ one_lanes op bank.now.shape (lanes_in bank.now.shape bank.now.regs.now) rs1 }
{
    match op {
        OneOp::Neg => bank.one_lanes(|a| one(OneOp::Neg, a), rs1),
        OneOp::Abs => bank.one_lanes(|a| one(OneOp::Abs, a), rs1),
        OneOp::Not => bank.one_lanes(|a| one(OneOp::Not, a), rs1),
        OneOp::Popcnt => bank.one_lanes(|a| one(OneOp::Popcnt, a), rs1),
        OneOp::Mov => bank.one_lanes(|a| one(OneOp::Mov, a), rs1),
    }
}
