// One instruction that is not control, carried out by the executing lanes: every lane's result is worked out before any lane is
// written, and with a fault nothing is written at all.
#![tactic(auto)]

mod bank;
mod classes;
mod comparisons;
mod constants;
mod masks;
mod memory;
mod one_operand;
mod per_lane;
mod registers;
mod two_operands;

ghost use Rattle.std.specs.Prelude.{◌≡◌, true};
ghost use Rattle.instructions.specs.declared.instr.CompareOp.{CompareOp};
ghost use Rattle.compute.specs.Registers.{lanes_in};
ghost use Rattle.compute.specs.Operands.{lent, operands_of};
ghost use Rattle.compute.specs.Carrying.{carried, in_shape, having_read, carried_of};
ghost use Rattle.compute.specs.Classes.{Carries};

use crate::bank::Bank;
use crate::classes::{
    carry_change, carry_load, carry_number, carry_one, carry_shuffle, carry_special, carry_store,
    carry_two, carry_wave,
};
use crate::comparisons::{compare_results, predicate_after};
use crate::memory::Change;
use faulting::faults::{Faults, no_faults};
use instructions::instr::{Instr, Op};
use instructions::registers::registers_below;
use lanes::{Lanes, WIDEST, Width};

// The wave's lanes, and the registers of each.
#[derive(Clone, Copy)]
pub struct Shape {
    pub width: u32,
    pub registers: u32,
}

// The faults, and the predicate that RD names as it is afterwards.
#[derive(Clone, Copy)]
pub struct Carried {
    pub faults: Faults,
    pub predicate: Lanes,
}

// `x` carried out by the lanes `t`. `predicate` is the set of the predicate that RD names, for comparisons. Control instructions, and
// instructions out of shape, do nothing: a wave is no wider than the widest, the registers of `x` are below the number of registers,
// and the buffer has room for the registers of every lane.
pub fn carry_out(
    x: Instr,
    t: Lanes,
    predicate: Lanes,
    shape: Shape,
    regs: &mut [u32],
    device: &mut [u32],
    local: &mut [u32],
) -> Carried
    ensures { carried result (lanes_in shape regs.new) device.new local.new ≡ carried_of shape x t (lent predicate (lanes_in shape regs.old) device.old local.old) }
{
    if in_shape(shape, x, regs) {
        return carry(x, t, predicate, shape, regs, device, local);
    }
    Carried {
        faults: no_faults(),
        predicate,
    }
}

// Whether the wave is no wider than the widest, every register of `x` is below the number of registers, and the buffer has room for all.
fn in_shape(shape: Shape, x: Instr, regs: &[u32]) -> bool
    ensures { result ≡ in_shape shape x (lanes_in shape regs.now) }
{
    let room = (shape.width as usize) * (shape.registers as usize);
    (shape.width <= WIDEST) & registers_below(x, shape.registers) & (room <= regs.len())
}

// An instruction in shape: a comparison leaves a predicate, and every other one leaves the predicate as it was. From here on `x`, `t` and
// the shape travel apart: as one struct they make an arithmetic step take 1.09 to 1.10 of its time. So do the lent buffers, since a struct
// that holds a `&mut` owes in each contract that it holds the same one still.
fn carry(
    x: Instr,
    t: Lanes,
    predicate: Lanes,
    shape: Shape,
    regs: &mut [u32],
    device: &mut [u32],
    local: &mut [u32],
) -> Carried
    requires { in_shape shape x (lanes_in shape regs.old) ≡ true }
    ensures { carried result (lanes_in shape regs.new) device.new local.new ≡ having_read shape x t (operands_of shape x (lanes_in shape regs.old)) (lent predicate (lanes_in shape regs.old) device.old local.old) }
{
    let op = x.op;
    let Op::Compare(o) = op else {
        let faults = carry_class(x, t, shape, regs, device, local);
        return Carried { faults, predicate };
    };
    let bank = Bank { shape, regs };
    let results = compare_results(o, &bank, x.rs1, x.rs2);
    Carried {
        faults: no_faults(),
        predicate: predicate_after(&results, t, predicate, Width { lanes: shape.width }),
    }
}

// Any other instruction in shape than a comparison, by its class.
fn carry_class(
    x: Instr,
    t: Lanes,
    shape: Shape,
    regs: &mut [u32],
    device: &mut [u32],
    local: &mut [u32],
) -> Faults
    requires { (in_shape shape x (lanes_in shape regs.old) ≡ true) × ((o : CompareOp) → x.op ≡ Op.Compare o → ⊥) }
    ensures { Carries shape x t (lanes_in shape regs.old) device.old local.old result (lanes_in shape regs.new) device.new local.new }
{
    let op = x.op;
    match op {
        Op::Two(o) => carry_two(o, x, t, shape, regs),
        Op::Compare(_) => no_faults(),
        Op::One(o) => carry_one(o, x, t, shape, regs),
        Op::Special => carry_special(x, t, shape, regs),
        Op::Number => carry_number(x, t, shape, regs),
        Op::Load(space) => carry_load(space, x, t, shape, regs, device, local),
        Op::Store(space) => carry_store(space, x, t, shape, regs, device, local),
        Op::Atomic(o) => carry_change(Change::Atomic(o), x, t, shape, regs, device),
        Op::Cas => carry_change(Change::Swap, x, t, shape, regs, device),
        Op::Wave(o) => carry_wave(o, x, t, shape, regs),
        Op::Shuffle => carry_shuffle(x, t, shape, regs),
        Op::Control(_) => no_faults(),
    }
}
