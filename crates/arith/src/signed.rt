// Registers as signed numbers: read, written, compared.
ghost use Rattle.std.specs.Prelude.{◌≡◌};
ghost use Rattle.arith.specs.Arith as arith;
ghost use Rattle.arith.specs.Arith.{signed, register, two_of, one_of};

use instructions::instr::{OneOp, TwoOp};

// The register of the least signed number; a register from it on is negative.
pub const LEAST: u32 = 0x8000_0000;

// The register of -1, the largest register.
pub const MINUS_ONE: u32 = 0xFFFF_FFFF;

// A register read as a signed number.
pub fn to_signed(x: u32) -> i32
    ensures { result ≡ signed x }
{
    x.cast_signed()
}

// The register that holds a signed number.
pub fn to_register(z: i32) -> u32
    ensures { result ≡ register z }
{
    z.cast_unsigned()
}

// Whether `a` is below `b`, both signed.
pub fn less(a: u32, b: u32) -> bool
    ensures { result ≡ arith.less a b }
{
    let x = to_signed(a);
    let y = to_signed(b);
    x < y
}

// The lower of two signed numbers. Over `less`, and not by the library's `min`, whose answer would be written back to a register.
pub fn min(a: u32, b: u32) -> u32
    ensures { result ≡ two_of TwoOp.Min a b }
{
    if less(a, b) { a } else { b }
}

// The higher of two signed numbers.
pub fn max(a: u32, b: u32) -> u32
    ensures { result ≡ two_of TwoOp.Max a b }
{
    if less(a, b) { b } else { a }
}

// A signed number without its sign; the least one, 80000000, stays.
pub fn abs(a: u32) -> u32
    ensures { result ≡ one_of OneOp.Abs a }
{
    to_signed(a).unsigned_abs()
}
