// What an operation gives, chosen by its name; what each does to numbers is `arith`.
// Every function has an answer for all operands: a divisor of zero is the caller's fault to find, by `divides`.
#![tactic(auto)]

ghost use Rattle.std.specs.Prelude.{◌≡◌};
ghost use Rattle.arith.specs.Arith as arith;
ghost use Rattle.arith.specs.Arith.{two_of, one_of, compare_of, atomic_of, swap_of};

use arith::bits::ones;
use arith::division::{div, rem, udiv, urem};
use arith::products::{mul, mulhi};
use arith::shifts::{sar, shl, shr};
use arith::signed::{abs, less, max, min};
use arith::sums::{add, neg, sub};
use instructions::instr::{AtomicOp, CompareOp, OneOp, TwoOp};

// What `op` gives of RS1 and RS2.
pub fn two(op: TwoOp, a: u32, b: u32) -> u32
    ensures { result ≡ two_of op a b }
{
    match op {
        TwoOp::Add => add(a, b),
        TwoOp::Sub => sub(a, b),
        TwoOp::Mul => mul(a, b),
        TwoOp::Div => div(a, b),
        TwoOp::Udiv => udiv(a, b),
        TwoOp::Rem => rem(a, b),
        TwoOp::Urem => urem(a, b),
        TwoOp::Min => min(a, b),
        TwoOp::Max => max(a, b),
        TwoOp::Mulhi => mulhi(a, b),
        TwoOp::And => a & b,
        TwoOp::Or => a | b,
        TwoOp::Xor => a ^ b,
        TwoOp::Shl => shl(a, b),
        TwoOp::Shr => shr(a, b),
        TwoOp::Sar => sar(a, b),
    }
}

// Whether the operation faults on a divisor of zero.
pub fn divides(op: TwoOp) -> bool
    ensures { result ≡ arith.divides op }
{
    matches!(op, TwoOp::Div | TwoOp::Udiv | TwoOp::Rem | TwoOp::Urem)
}

// What `op` gives of RS1 alone.
pub fn one(op: OneOp, a: u32) -> u32
    ensures { result ≡ one_of op a }
{
    match op {
        OneOp::Neg => neg(a),
        OneOp::Abs => abs(a),
        OneOp::Not => !a,
        OneOp::Popcnt => ones(a),
        OneOp::Mov => a,
    }
}

// Whether the comparison holds of RS1 and RS2.
pub fn compare(op: CompareOp, a: u32, b: u32) -> bool
    ensures { result ≡ compare_of op a b }
{
    match op {
        CompareOp::Eq => a == b,
        CompareOp::Ne => a != b,
        CompareOp::Lt => less(a, b),
        CompareOp::Ge => !less(a, b),
    }
}

// What an atomic leaves where it found `old`.
pub fn atomic(op: AtomicOp, old: u32, v: u32) -> u32
    ensures { result ≡ atomic_of op old v }
{
    match op {
        AtomicOp::Add => add(old, v),
        AtomicOp::Sub => sub(old, v),
        AtomicOp::And => old & v,
        AtomicOp::Or => old | v,
        AtomicOp::Xor => old ^ v,
        AtomicOp::Min => min(old, v),
        AtomicOp::Max => max(old, v),
        AtomicOp::Umin => old.min(v),
        AtomicOp::Umax => old.max(v),
        AtomicOp::Xchg => v,
    }
}

// What compare-and-swap leaves where it found `old`.
pub fn swap(old: u32, expected: u32, desired: u32) -> u32
    ensures { result ≡ swap_of old expected desired }
{
    if old == expected { desired } else { old }
}
