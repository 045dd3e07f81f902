// Loads, stores and atomics of the executing lanes, over a memory of 32-bit words. Each has an answer for all addresses: a word past
// the end reads as 0 and is not written.
ghost use Rattle.std.specs.Prelude.{◌≡◌, cond, ◌<◌, get_or, set};
ghost use Rattle.arith.specs.Arith.{word_of};
ghost use Rattle.lanes.specs.EachLane.{by_lane};
ghost use Rattle.compute.specs.Registers.{lanes_in, gather_of};
ghost use Rattle.compute.specs.Memory.{addresses_of, changes_of, old_of};
ghost use Rattle.compute.specs.Lanewise.{load_lanes, change_of, change_to};

use crate::bank::Bank;
use crate::masks::{marked, picks};
use crate::per_lane::each_lane;
use instructions::instr::AtomicOp;
use lanes::{ByLane, EACH_LANE, Lanes, Width};

// What an atomic does to the word that it finds: an operation with its operand, or compare-and-swap.
#[derive(Clone, Copy)]
pub enum Change {
    Atomic(AtomicOp),
    Swap,
}

// The addresses of a load or a store: RS1 plus the offset.
pub(crate) fn addresses(bank: &Bank, rs1: u8, offset: u32) -> ByLane
    requires { rs1 < bank.now.shape.registers }
    ensures { result ≡ addresses_of bank.now.shape.width (gather_of bank.now.shape (lanes_in bank.now.shape bank.now.regs.now) rs1) offset }
{
    bank.one_lanes(|base| arith::sums::address(base, offset), rs1)
}

// The word that an address names.
fn word(memory: &[u32], address: u32) -> u32
    ensures { result ≡ get_or memory.now (word_of address) 0 }
{
    let k = (address / 4) as usize;
    if k < memory.len() { memory[k] } else { 0 }
}

// Writes the word that an address names.
fn put_word(memory: &mut [u32], address: u32, value: u32)
    ensures { memory.new ≡ set memory.old (word_of address) value }
{
    let k = (address / 4) as usize;
    if k < memory.len() {
        memory[k] = value;
    }
}

// Writes it where the lane executes.
fn put_picked(memory: &mut [u32], address: u32, value: u32, picked: bool)
    ensures { memory.new ≡ cond picked (set memory.old (word_of address) value) memory.old }
{
    if picked {
        put_word(memory, address, value);
    }
}

// The words that the lanes' addresses name.
pub(crate) fn load_lanes(at: &ByLane, memory: &[u32], width: Width) -> ByLane
    ensures { result ≡ load_lanes width.lanes at.now memory.now }
{
    each_lane(width, |i| word(memory, at[i as usize]))
}

// Stores register `rd` of the lanes `t` at their addresses, in rising lane order.
pub(crate) fn store_lanes(at: &ByLane, t: Lanes, rd: u8, bank: &Bank, memory: &mut [u32])
    requires { rd < bank.now.shape.registers }
    ensures { memory.new ≡ changes_of bank.now.shape.width at.now (λ i old. get_or (gather_of bank.now.shape (lanes_in bank.now.shape bank.now.regs.now) rd) i 0) t memory.old }
{
    for i in 0..bank.shape.width {
        put_picked(memory, at[i as usize], bank.at(i, rd), picks(t, i));
    }
}

// What an atomic leaves where it found `old`.
fn changed(change: Change, old: u32, operand: u32, desired: u32) -> u32
    ensures { result ≡ change_of change old operand desired }
{
    match change {
        Change::Atomic(op) => operations::atomic(op, old, operand),
        Change::Swap => operations::swap(old, operand, desired),
    }
}

// An atomic on the word that an address names. The answer is the word that it found.
fn change_word(change: Change, address: u32, operand: u32, desired: u32, memory: &mut [u32]) -> u32
    ensures found { result ≡ get_or memory.old (word_of address) 0 }
    ensures left { memory.new ≡ set memory.old (word_of address) (change_of change (get_or memory.old (word_of address) 0) operand desired) }
{
    let old = word(memory, address);
    let new = changed(change, old, operand, desired);
    put_word(memory, address, new);
    old
}

// The atomics of the lanes `t`, in rising lane order, with their registers `rs2` and, for compare-and-swap, `rs3`. The answer is the
// word that each found. Lanes that do not execute cost nothing: the loop goes from one lane of the set to the next.
pub(crate) fn change_lanes(
    change: Change,
    at: &ByLane,
    t: Lanes,
    rs2: u8,
    rs3: u8,
    bank: &Bank,
    memory: &mut [u32],
) -> ByLane
    requires { (rs2 < bank.now.shape.registers) × (rs3 < bank.now.shape.registers) }
    ensures found { result ≡ by_lane bank.now.shape.width (old_of at.now (change_to change bank.now.shape (lanes_in bank.now.shape bank.now.regs.now) rs2 rs3) t memory.old) }
    ensures left { memory.new ≡ changes_of bank.now.shape.width at.now (change_to change bank.now.shape (lanes_in bank.now.shape bank.now.regs.now) rs2 rs3) t memory.old }
{
    let mut out = [0u32; EACH_LANE];
    let mut rest = lanes::meet(t, lanes::first(bank.shape.width));
    while rest != 0 {
        let i = lanes::lowest(rest);
        let k = i as usize;
        let operand = bank.at(i, rs2);
        let desired = bank.at(i, rs3);
        out[k] = change_word(change, at[k], operand, desired, memory);
        rest = lanes::without(rest, marked(rest, i, true));
    }
    out
}
