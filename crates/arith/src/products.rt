// The two halves of the product, worked out at 64 bits.
ghost use Rattle.std.specs.Prelude.{◌≡◌};
ghost use Rattle.arith.specs.Arith.{signed, two_of};

use crate::signed::{to_register, to_signed};
use instructions::instr::TwoOp;

// The low half, which the signed and the unsigned product share.
pub fn mul(a: u32, b: u32) -> u32
    ensures { result ≡ two_of TwoOp.Mul a b }
{
    ((a as u64) * (b as u64) % 0x1_0000_0000) as u32
}

// The high half of the signed product.
pub fn mulhi(a: u32, b: u32) -> u32
    ensures { result ≡ two_of TwoOp.Mulhi a b }
{
    let x = wide(a);
    let y = wide(b);
    to_register(((x * y) >> 32) as i32)
}

// A register read as a signed number of 64 bits.
fn wide(a: u32) -> i64
    ensures { result ≡ signed a }
{
    let x = to_signed(a);
    x as i64
}
