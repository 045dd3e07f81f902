// Every operation on corner values, as text: a line for each operation and first operand, with the results over the second.
// tests/arith_cases.py works the same lines out from page 01.
#![tactic(auto)]

use arith::sums::address;
use instructions::instr::{AtomicOp, CompareOp, OneOp, TwoOp};
use operations::divides;

// Written by `io`, which stands on one call of the system, where std's streams bring 37.
const STDOUT_FILENO: i32 = 1;

// The corner values.
const CORNERS: [u32; 16] = [
    0,
    1,
    2,
    3,
    7,
    31,
    32,
    33,
    0x1234_5678,
    0x7FFF_FFFF,
    0x8000_0000,
    0x8000_0001,
    0xDEAD_BEEF,
    0xFFFF_FFF9,
    0xFFFF_FFFE,
    0xFFFF_FFFF,
];

// What is worked out of two operands.
#[derive(Clone, Copy)]
enum Work {
    Two(TwoOp),
    One(OneOp),
    Compare(CompareOp),
    Atomic(AtomicOp),
    Swap,
    Address,
}

// Whether the work faults on `b`.
fn faults(work: Work, b: u32) -> bool {
    match work {
        Work::Two(op) => divides(op) & (b == 0),
        _ => false,
    }
}

// What the work gives. One operand is `b` alone; a swap expects `b`, desires 5, and finds `a`.
fn answer(work: Work, a: u32, b: u32) -> u32 {
    match work {
        Work::Two(op) => operations::two(op, a, b),
        Work::One(op) => operations::one(op, b),
        Work::Compare(op) => u32::from(operations::compare(op, a, b)),
        Work::Atomic(op) => operations::atomic(op, a, b),
        Work::Swap => operations::swap(a, b, 5),
        Work::Address => address(a, b),
    }
}

// How a line starts: the name and `a`.
fn start(name: &[u8], a: u32) {
    io::write_all(STDOUT_FILENO, name);
    io::write_all(STDOUT_FILENO, b" ");
    io::print_hex(STDOUT_FILENO, a as u64, 8);
    io::write_all(STDOUT_FILENO, b":");
}

// The answer for `b`, or that it faults.
fn put(work: Work, a: u32, b: u32) {
    io::write_all(STDOUT_FILENO, b" ");
    if faults(work, b) {
        io::write_all(STDOUT_FILENO, b"fault");
        return;
    }
    io::print_hex(STDOUT_FILENO, answer(work, a, b) as u64, 8);
}

// One line: the name, `a`, and the answer for each corner value.
fn line(name: &[u8], work: Work, a: u32) {
    start(name, a);
    for b in CORNERS {
        put(work, a, b);
    }
    io::write_all(STDOUT_FILENO, b"\n");
}

// A line for each corner value as the first operand.
fn lines(name: &[u8], work: Work) {
    for a in CORNERS {
        line(name, work, a);
    }
}

fn twos() {
    lines(b"ADD", Work::Two(TwoOp::Add));
    lines(b"SUB", Work::Two(TwoOp::Sub));
    lines(b"MUL", Work::Two(TwoOp::Mul));
    lines(b"DIV", Work::Two(TwoOp::Div));
    lines(b"UDIV", Work::Two(TwoOp::Udiv));
    lines(b"REM", Work::Two(TwoOp::Rem));
    lines(b"UREM", Work::Two(TwoOp::Urem));
    lines(b"MIN", Work::Two(TwoOp::Min));
    lines(b"MAX", Work::Two(TwoOp::Max));
    lines(b"MULHI", Work::Two(TwoOp::Mulhi));
    lines(b"AND", Work::Two(TwoOp::And));
    lines(b"OR", Work::Two(TwoOp::Or));
    lines(b"XOR", Work::Two(TwoOp::Xor));
    lines(b"SHL", Work::Two(TwoOp::Shl));
    lines(b"SHR", Work::Two(TwoOp::Shr));
    lines(b"SAR", Work::Two(TwoOp::Sar));
}

fn ones() {
    line(b"NEG", Work::One(OneOp::Neg), 0);
    line(b"ABS", Work::One(OneOp::Abs), 0);
    line(b"NOT", Work::One(OneOp::Not), 0);
    line(b"POPCNT", Work::One(OneOp::Popcnt), 0);
    line(b"MOV", Work::One(OneOp::Mov), 0);
}

fn compares() {
    lines(b"EQ", Work::Compare(CompareOp::Eq));
    lines(b"NE", Work::Compare(CompareOp::Ne));
    lines(b"LT", Work::Compare(CompareOp::Lt));
    lines(b"GE", Work::Compare(CompareOp::Ge));
}

fn atomics() {
    lines(b"ATOMIC ADD", Work::Atomic(AtomicOp::Add));
    lines(b"ATOMIC SUB", Work::Atomic(AtomicOp::Sub));
    lines(b"ATOMIC AND", Work::Atomic(AtomicOp::And));
    lines(b"ATOMIC OR", Work::Atomic(AtomicOp::Or));
    lines(b"ATOMIC XOR", Work::Atomic(AtomicOp::Xor));
    lines(b"ATOMIC MIN", Work::Atomic(AtomicOp::Min));
    lines(b"ATOMIC MAX", Work::Atomic(AtomicOp::Max));
    lines(b"ATOMIC UMIN", Work::Atomic(AtomicOp::Umin));
    lines(b"ATOMIC UMAX", Work::Atomic(AtomicOp::Umax));
    lines(b"ATOMIC XCHG", Work::Atomic(AtomicOp::Xchg));
    lines(b"CAS", Work::Swap);
}

fn main() {
    twos();
    ones();
    compares();
    atomics();
    lines(b"ADDRESS", Work::Address);
}
