// Sums and differences, which wrap at 2^32.
ghost use Rattle.std.specs.Prelude.{◌≡◌};
ghost use Rattle.arith.specs.Arith.{two_of, one_of, address_of};

use instructions::instr::{OneOp, TwoOp};

// An address: the base plus the offset.
pub fn address(base: u32, offset: u32) -> u32
    ensures { result ≡ address_of base offset }
{
    base.wrapping_add(offset)
}

pub fn add(a: u32, b: u32) -> u32
    ensures { result ≡ two_of TwoOp.Add a b }
{
    a.wrapping_add(b)
}

pub fn sub(a: u32, b: u32) -> u32
    ensures { result ≡ two_of TwoOp.Sub a b }
{
    a.wrapping_sub(b)
}

pub fn neg(a: u32) -> u32
    ensures { result ≡ one_of OneOp.Neg a }
{
    a.wrapping_neg()
}
