// Where the registers stand, and the writer. The writer takes the buffer beside its shape, and no bank: a struct that holds a `&mut` owes in
// each contract that it holds the same one still, which is as many clauses as it saves.
ghost use Rattle.std.specs.Prelude.{◌≡◌};
ghost use Rattle.lanes.specs.Sets.{first};
ghost use Rattle.compute.specs.Registers.{Stands, lanes_in, slot_in, write_lanes};

use crate::Shape;
use crate::masks::{chosen, picks};
use lanes::{ByLane, Lanes};

// Where register `register` of `lane` stands.
pub(crate) fn slot(shape: Shape, lane: u32, register: u8) -> usize
    ensures { result ≡ slot_in shape lane register }
{
    (lane as usize) * (shape.registers as usize) + (register as usize)
}

// Writes the results of every lane to its register `rd`.
fn write_all_lanes(results: &ByLane, rd: u8, shape: Shape, regs: &mut [u32])
    requires { Stands shape (lanes_in shape regs.old) rd }
    ensures { lanes_in shape regs.new ≡ write_lanes shape (lanes_in shape regs.old) rd (first shape.width) results.now }
{
    for i in 0..shape.width {
        regs[slot(shape, i, rd)] = results[i as usize];
    }
}

// Writes the results of the lanes `t` to their registers `rd`, lane by lane with a choice.
fn write_some_lanes(results: &ByLane, t: Lanes, rd: u8, shape: Shape, regs: &mut [u32])
    requires { Stands shape (lanes_in shape regs.old) rd }
    ensures { lanes_in shape regs.new ≡ write_lanes shape (lanes_in shape regs.old) rd t results.now }
{
    for i in 0..shape.width {
        let at = slot(shape, i, rd);
        let old = regs[at];
        regs[at] = chosen(picks(t, i), results[i as usize], old);
    }
}

// Writes the results of the lanes `t` to their registers `rd`.
pub(crate) fn write_lanes(results: &ByLane, t: Lanes, rd: u8, shape: Shape, regs: &mut [u32])
    requires { Stands shape (lanes_in shape regs.old) rd }
    ensures { lanes_in shape regs.new ≡ write_lanes shape (lanes_in shape regs.old) rd t results.now }
{
    if t == lanes::first(shape.width) {
        write_all_lanes(results, rd, shape, regs);
    } else {
        write_some_lanes(results, t, rd, shape, regs);
    }
}
