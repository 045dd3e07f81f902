// A register's bits, and a count of them.
ghost use Rattle.std.specs.Prelude.{◌≡◌};
ghost use Rattle.arith.specs.Arith.{one_of};

use instructions::instr::OneOp;

// How many bits a register has.
pub const BITS: u32 = 32;

// How many bits of a register are 1.
pub fn ones(a: u32) -> u32
    ensures { result ≡ one_of OneOp.Popcnt a }
{
    a.count_ones()
}
