// Results of the operations on RS1 and RS2. An arm for each operation, so that each has a loop with no choice of operation within: with one
// loop for all, that chooses at each lane, an arithmetic step takes 1.15 to 1.55 of its time.
ghost use Rattle.std.specs.Prelude.{◌≡◌, ◌<◌};
ghost use Rattle.compute.specs.Registers.{lanes_in};
ghost use Rattle.compute.specs.Lanewise.{two_lanes};

use crate::bank::Bank;
use instructions::instr::TwoOp;
use lanes::ByLane;
use operations::two;

// What `op` gives of every lane's RS1 and RS2.
pub(crate) fn two_results(op: TwoOp, bank: &Bank, rs1: u8, rs2: u8) -> ByLane
    requires { (rs1 < bank.now.shape.registers) × (rs2 < bank.now.shape.registers) }
    ensures { result ≡ two_lanes op bank.now.shape (lanes_in bank.now.shape bank.now.regs.now) rs1 rs2 }
{
    match op {
        TwoOp::Add => bank.two_lanes(|a, b| two(TwoOp::Add, a, b), rs1, rs2),
        TwoOp::Sub => bank.two_lanes(|a, b| two(TwoOp::Sub, a, b), rs1, rs2),
        TwoOp::Mul => bank.two_lanes(|a, b| two(TwoOp::Mul, a, b), rs1, rs2),
        TwoOp::Div => bank.two_lanes(|a, b| two(TwoOp::Div, a, b), rs1, rs2),
        TwoOp::Udiv => bank.two_lanes(|a, b| two(TwoOp::Udiv, a, b), rs1, rs2),
        TwoOp::Rem => bank.two_lanes(|a, b| two(TwoOp::Rem, a, b), rs1, rs2),
        TwoOp::Urem => bank.two_lanes(|a, b| two(TwoOp::Urem, a, b), rs1, rs2),
        TwoOp::Min => bank.two_lanes(|a, b| two(TwoOp::Min, a, b), rs1, rs2),
        TwoOp::Max => bank.two_lanes(|a, b| two(TwoOp::Max, a, b), rs1, rs2),
        TwoOp::Mulhi => bank.two_lanes(|a, b| two(TwoOp::Mulhi, a, b), rs1, rs2),
        TwoOp::And => bank.two_lanes(|a, b| two(TwoOp::And, a, b), rs1, rs2),
        TwoOp::Or => bank.two_lanes(|a, b| two(TwoOp::Or, a, b), rs1, rs2),
        TwoOp::Xor => bank.two_lanes(|a, b| two(TwoOp::Xor, a, b), rs1, rs2),
        TwoOp::Shl => bank.two_lanes(|a, b| two(TwoOp::Shl, a, b), rs1, rs2),
        TwoOp::Shr => bank.two_lanes(|a, b| two(TwoOp::Shr, a, b), rs1, rs2),
        TwoOp::Sar => bank.two_lanes(|a, b| two(TwoOp::Sar, a, b), rs1, rs2),
    }
}
