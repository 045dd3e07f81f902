// Shifts by RS2 modulo 32.
ghost use Rattle.std.specs.Prelude.{◌≡◌};
ghost use Rattle.arith.specs.Arith.{two_of};

use crate::bits::BITS;
use crate::signed::{to_register, to_signed};
use instructions::instr::TwoOp;

// To the left, zeros coming in.
pub fn shl(a: u32, b: u32) -> u32
    ensures { result ≡ two_of TwoOp.Shl a b }
{
    a << (b % BITS)
}

// To the right, zeros coming in.
pub fn shr(a: u32, b: u32) -> u32
    ensures { result ≡ two_of TwoOp.Shr a b }
{
    a >> (b % BITS)
}

// To the right, the sign coming in.
pub fn sar(a: u32, b: u32) -> u32
    ensures { result ≡ two_of TwoOp.Sar a b }
{
    let x = to_signed(a);
    to_register(x >> (b % BITS))
}
