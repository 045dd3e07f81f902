// The registers of every lane, lent to be read.
ghost use Rattle.std.specs.Prelude.{◌≡◌, ℕ, ◌<◌, get_or};
ghost use Rattle.compute.specs.Registers.{Roomy, lanes_in, gather_of};
ghost use Rattle.compute.specs.Lanewise.{OfOne, OfTwo, by_one, by_two};

use crate::Shape;
use crate::registers::slot;
use lanes::{ByLane, EACH_LANE};

// The registers of a wave no wider than the widest, in a buffer with room for those of every lane.
#[derive(Clone, Copy)]
pub struct Bank<'a> {
    pub shape: Shape,
    pub regs: &'a [u32],
    pub ghost roomy: { Roomy shape (lanes_in shape regs.now) },
}

impl<'a> Bank<'a> {
    // Register `register` of `lane`.
    pub(crate) fn at(&self, lane: u32, register: u8) -> u32
        requires below { lane < self.now.shape.width }
        requires low { register < self.now.shape.registers }
        ensures { result ≡ get_or (gather_of self.now.shape (lanes_in self.now.shape self.now.regs.now) register) lane 0 }
    {
        self.regs[slot(self.shape, lane, register)]
    }

    // Register `register` of every lane.
    pub(crate) fn gather(&self, register: u8) -> ByLane
        requires { register < self.now.shape.registers }
        ensures { result ≡ gather_of self.now.shape (lanes_in self.now.shape self.now.regs.now) register }
    {
        self.one_lanes(|number| number, register)
    }

    // What the rule gives of every lane's RS1. The compiler makes a loop of its own for each rule.
    pub(crate) fn one_lanes<F: Fn(u32) -> u32>(&self, rule: F, rs1: u8) -> ByLane
        requires callable { F.IsAlwaysCallable rule }
        requires low { rs1 < self.now.shape.registers }
        ensures { (g : ℕ → ℕ) → OfOne (F.post rule) g → result ≡ by_one g self.now.shape (lanes_in self.now.shape self.now.regs.now) rs1 }
    {
        let mut out = [0u32; EACH_LANE];
        for i in 0..self.shape.width {
            out[i as usize] = rule(self.at(i, rs1));
        }
        out
    }

    // What the rule gives of every lane's RS1 and RS2.
    pub(crate) fn two_lanes<F: Fn(u32, u32) -> u32>(&self, rule: F, rs1: u8, rs2: u8) -> ByLane
        requires callable { F.IsAlwaysCallable rule }
        requires low { (rs1 < self.now.shape.registers) × (rs2 < self.now.shape.registers) }
        ensures { (g : ℕ → ℕ → ℕ) → OfTwo (F.post rule) g → result ≡ by_two g self.now.shape (lanes_in self.now.shape self.now.regs.now) rs1 rs2 }
    {
        let mut out = [0u32; EACH_LANE];
        for i in 0..self.shape.width {
            out[i as usize] = rule(self.at(i, rs1), self.at(i, rs2));
        }
        out
    }
}
