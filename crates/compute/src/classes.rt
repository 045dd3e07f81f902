// One class of instructions each, whole: the results of every lane, then the writing, unless a lane faults.
ghost use Rattle.std.specs.Prelude.{◌≡◌, ◌<◌, List, ℕ};
ghost use Rattle.instructions.specs.declared.instr.Op.{Op};
ghost use Rattle.compute.specs.Registers.{Stands, lanes_in, write_lanes};
ghost use Rattle.compute.specs.Lanewise.{op_by, desired_by};
ghost use Rattle.compute.specs.Classes.{Ready, Carries, Settled, dividing_faults, Loads, Stores};

use crate::Shape;
use crate::bank::Bank;
use crate::constants::special_results;
use crate::memory::{Change, addresses, change_lanes, load_lanes, store_lanes};
use crate::one_operand::one_results;
use crate::registers::write_lanes;
use crate::two_operands::two_results;
use across::{shuffle_results, wave_results};
use faulting::addresses::address_faults;
use faulting::divisors::divisor_faults;
use faulting::faults::{Faults, is_clear, no_faults};
use instructions::instr::{Instr, OneOp, Space, TwoOp, WaveOp};
use lanes::{ByLane, Lanes, Width};

// Every lane's result, with the fault lanes beside it.
#[derive(Clone, Copy)]
pub struct Results {
    pub value: ByLane,
    pub faults: Faults,
}

// Writes the results of the lanes `t` to their registers `rd`, unless a lane faults.
fn write_results(results: Results, t: Lanes, rd: u8, shape: Shape, regs: &mut [u32]) -> Faults
    requires { Stands shape (lanes_in shape regs.old) rd }
    ensures { Settled results.faults (write_lanes shape (lanes_in shape regs.old) rd t results.value) result (lanes_in shape regs.old) (lanes_in shape regs.new) }
{
    let value = results.value;
    let faults = results.faults;
    if is_clear(faults) {
        write_lanes(&value, t, rd, shape, regs);
    }
    faults
}

// The faults of the lanes `t` that divide by their registers `rs2`, if `op` divides.
fn dividing_faults(op: TwoOp, t: Lanes, bank: &Bank, rs2: u8) -> Faults
    requires { rs2 < bank.now.shape.registers }
    ensures { result ≡ dividing_faults op bank.now.shape (lanes_in bank.now.shape bank.now.regs.now) rs2 t }
{
    if operations::divides(op) {
        return divisor_faults(bank.gather(rs2), t, bank.shape.width);
    }
    no_faults()
}

// An operation on RS1 and RS2.
pub(crate) fn carry_two(op: TwoOp, x: Instr, t: Lanes, shape: Shape, regs: &mut [u32]) -> Faults
    requires { Ready (Op.Two op) shape x (lanes_in shape regs.old) }
    ensures { (device local : List ℕ) → Carries shape x t (lanes_in shape regs.old) device local result (lanes_in shape regs.new) device local }
{
    let bank = Bank { shape, regs };
    let faults = dividing_faults(op, t, &bank, x.rs2);
    let value = two_results(op, &bank, x.rs1, x.rs2);
    write_results(Results { value, faults }, t, x.rd, shape, regs)
}

// An operation on RS1 alone.
pub(crate) fn carry_one(op: OneOp, x: Instr, t: Lanes, shape: Shape, regs: &mut [u32]) -> Faults
    requires { Ready (Op.One op) shape x (lanes_in shape regs.old) }
    ensures { (device local : List ℕ) → Carries shape x t (lanes_in shape regs.old) device local result (lanes_in shape regs.new) device local }
{
    let faults = no_faults();
    let bank = Bank { shape, regs };
    let value = one_results(op, &bank, x.rs1);
    write_results(Results { value, faults }, t, x.rd, shape, regs)
}

// MOV_SPECIAL.
pub(crate) fn carry_special(x: Instr, t: Lanes, shape: Shape, regs: &mut [u32]) -> Faults
    requires { Ready Op.Special shape x (lanes_in shape regs.old) }
    ensures { (device local : List ℕ) → Carries shape x t (lanes_in shape regs.old) device local result (lanes_in shape regs.new) device local }
{
    let faults = no_faults();
    let value = special_results(x.rs1, Width { lanes: shape.width });
    write_results(Results { value, faults }, t, x.rd, shape, regs)
}

// MOV_IMM.
pub(crate) fn carry_number(x: Instr, t: Lanes, shape: Shape, regs: &mut [u32]) -> Faults
    requires { Ready Op.Number shape x (lanes_in shape regs.old) }
    ensures { (device local : List ℕ) → Carries shape x t (lanes_in shape regs.old) device local result (lanes_in shape regs.new) device local }
{
    let faults = no_faults();
    let value = lanes::each(x.number, shape.width);
    write_results(Results { value, faults }, t, x.rd, shape, regs)
}

// A wave operation but SHUFFLE, on RS1.
pub(crate) fn carry_wave(op: WaveOp, x: Instr, t: Lanes, shape: Shape, regs: &mut [u32]) -> Faults
    requires { Ready (Op.Wave op) shape x (lanes_in shape regs.old) }
    ensures { (device local : List ℕ) → Carries shape x t (lanes_in shape regs.old) device local result (lanes_in shape regs.new) device local }
{
    let faults = no_faults();
    let bank = Bank { shape, regs };
    let numbers = bank.gather(x.rs1);
    let value = wave_results(op, &numbers, t, shape.width);
    write_results(Results { value, faults }, t, x.rd, shape, regs)
}

// SHUFFLE: RS1 of the lane that RS2 names.
pub(crate) fn carry_shuffle(x: Instr, t: Lanes, shape: Shape, regs: &mut [u32]) -> Faults
    requires { Ready Op.Shuffle shape x (lanes_in shape regs.old) }
    ensures { (device local : List ℕ) → Carries shape x t (lanes_in shape regs.old) device local result (lanes_in shape regs.new) device local }
{
    let faults = no_faults();
    let bank = Bank { shape, regs };
    let numbers = bank.gather(x.rs1);
    let named = bank.gather(x.rs2);
    let value = shuffle_results(&numbers, &named, t, shape.width);
    write_results(Results { value, faults }, t, x.rd, shape, regs)
}

// A load from one memory.
fn load_through(
    space: Space,
    x: Instr,
    t: Lanes,
    shape: Shape,
    regs: &mut [u32],
    memory: &[u32],
) -> Faults
    requires { Ready (Op.Load space) shape x (lanes_in shape regs.old) }
    ensures { Loads space shape x t memory.now result (lanes_in shape regs.old) (lanes_in shape regs.new) }
{
    let bank = Bank { shape, regs };
    let at = addresses(&bank, x.rs1, x.number);
    let faults = address_faults(space, at, x.number, memory.len(), t, shape.width);
    let value = load_lanes(&at, memory, Width { lanes: shape.width });
    write_results(Results { value, faults }, t, x.rd, shape, regs)
}

// A store to one memory.
fn store_through(
    space: Space,
    x: Instr,
    t: Lanes,
    shape: Shape,
    regs: &[u32],
    memory: &mut [u32],
) -> Faults
    requires { Ready (Op.Store space) shape x (lanes_in shape regs.now) }
    ensures { Stores space shape x t (lanes_in shape regs.now) result memory.old memory.new }
{
    let bank = Bank { shape, regs };
    let at = addresses(&bank, x.rs1, x.number);
    let faults = address_faults(space, at, x.number, memory.len(), t, shape.width);
    if is_clear(faults) {
        store_lanes(&at, t, x.rd, &bank, memory);
    }
    faults
}

// A load.
pub(crate) fn carry_load(
    space: Space,
    x: Instr,
    t: Lanes,
    shape: Shape,
    regs: &mut [u32],
    device: &[u32],
    local: &[u32],
) -> Faults
    requires { Ready (Op.Load space) shape x (lanes_in shape regs.old) }
    ensures { Carries shape x t (lanes_in shape regs.old) device.now local.now result (lanes_in shape regs.new) device.now local.now }
{
    match space {
        Space::Device => load_through(Space::Device, x, t, shape, regs, device),
        Space::Local => load_through(Space::Local, x, t, shape, regs, local),
    }
}

// A store.
pub(crate) fn carry_store(
    space: Space,
    x: Instr,
    t: Lanes,
    shape: Shape,
    regs: &[u32],
    device: &mut [u32],
    local: &mut [u32],
) -> Faults
    requires { Ready (Op.Store space) shape x (lanes_in shape regs.now) }
    ensures { Carries shape x t (lanes_in shape regs.now) device.old local.old result (lanes_in shape regs.now) device.new local.new }
{
    match space {
        Space::Device => store_through(Space::Device, x, t, shape, regs, device),
        Space::Local => store_through(Space::Local, x, t, shape, regs, local),
    }
}

// The register with the word that compare-and-swap would leave; an atomic has none, and its operand stands for it.
fn desired(change: Change, x: Instr) -> u8
    ensures { result ≡ desired_by change x }
{
    match change {
        Change::Atomic(_) => x.rs2,
        Change::Swap => x.rs3,
    }
}

// What is added to an atomic's base.
const NO_OFFSET: u32 = 0;

// An atomic, on device memory.
pub(crate) fn carry_change(
    change: Change,
    x: Instr,
    t: Lanes,
    shape: Shape,
    regs: &mut [u32],
    device: &mut [u32],
) -> Faults
    requires { Ready (op_by change) shape x (lanes_in shape regs.old) }
    ensures { (local : List ℕ) → Carries shape x t (lanes_in shape regs.old) device.old local result (lanes_in shape regs.new) device.new local }
{
    let rs3 = desired(change, x);
    let bank = Bank { shape, regs };
    let at = bank.gather(x.rs1);
    let faults = address_faults(Space::Device, at, NO_OFFSET, device.len(), t, shape.width);
    if is_clear(faults) {
        let value = change_lanes(change, &at, t, x.rs2, rs3, &bank, device);
        return write_results(Results { value, faults }, t, x.rd, shape, regs);
    }
    faults
}
