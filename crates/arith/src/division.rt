// Quotients and remainders. By zero the quotient is 0 and the remainder the dividend. One signed quotient, of the least number by -1,
// is no signed number: it is handled apart, as page 01 names the form, and not by `wrapping_div`.
ghost use Rattle.std.specs.Prelude.{◌≡◌};
ghost use Rattle.arith.specs.Arith.{two_of};

use crate::signed::{LEAST, MINUS_ONE, to_register, to_signed};
use instructions::instr::TwoOp;

// The signed quotient, cut toward zero; 80000000 by FFFFFFFF is 80000000.
pub fn div(a: u32, b: u32) -> u32
    ensures { result ≡ two_of TwoOp.Div a b }
{
    if b == 0 {
        return 0;
    }
    if (a == LEAST) & (b == MINUS_ONE) {
        return LEAST;
    }
    let x = to_signed(a);
    let y = to_signed(b);
    to_register(x / y)
}

// The signed remainder, with the dividend's sign.
pub fn rem(a: u32, b: u32) -> u32
    ensures { result ≡ two_of TwoOp.Rem a b }
{
    if b == 0 {
        return a;
    }
    if (a == LEAST) & (b == MINUS_ONE) {
        return 0;
    }
    let x = to_signed(a);
    let y = to_signed(b);
    to_register(x % y)
}

// The unsigned quotient.
pub fn udiv(a: u32, b: u32) -> u32
    ensures { result ≡ two_of TwoOp.Udiv a b }
{
    if b == 0 {
        return 0;
    }
    a / b
}

// The unsigned remainder.
pub fn urem(a: u32, b: u32) -> u32
    ensures { result ≡ two_of TwoOp.Urem a b }
{
    if b == 0 {
        return a;
    }
    a % b
}
