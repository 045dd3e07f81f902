// The instruction at a place of code that has passed the check: what its words say, with no test of them.
#![tactic(auto)]

ghost use Rattle.std.specs.Prelude.{◌≡◌};
ghost use Rattle.fetching.specs.Fetching.{nop, fetch_at, control_in};
ghost use Rattle.words.specs.Layout.{opcode_in, modifier_in};
ghost use Rattle.opcodes.specs.Table.{op_of};

use instructions::forms::{limits_of, size_of};
use instructions::instr::{ControlOp, Guard, Instr, Op};
use opcodes::table::{control_op, reaching_op, register_op};
use words::reading::{Fetched, instr_in, word_at};

// NOP, for every lane.
fn no_operation() -> Fetched
    ensures { result ≡ nop }
{
    Fetched {
        instr: Instr {
            op: Op::Control(ControlOp::Nop),
            guard: Guard {
                pred: 0,
                negate: false,
            },
            rd: 0,
            rs1: 0,
            rs2: 0,
            rs3: 0,
            scope: 0,
            number: 0,
        },
        words: 1,
    }
}

// The operation that word 0 names. Not by `op_of`: that has other callers, and a call of it costs as much as the rest of a NOP.
fn op_in(first: u32) -> Option<Op>
    ensures { result ≡ op_of (opcode_in first) (modifier_in first) }
{
    let opcode = first / 0x1000000;
    let modifier = first / 16 % 16;
    if opcode == 0x3F {
        return control_op(modifier);
    }
    if opcode / 16 == 3 {
        return reaching_op(opcode, modifier);
    }
    register_op(opcode, modifier)
}

// What the words at a place say. NOP where no word stands, or none that names an operation.
#[tactic(auto, using(crate::proofs::Fetches::fetch_past, crate::proofs::Fetches::fetch_missing, crate::proofs::Fetches::fetch_carried))]
pub fn fetch_at(words: &[u32], at: usize) -> Fetched
    ensures { result ≡ fetch_at words.now at }
{
    if words.len() <= at {
        return no_operation();
    }
    let first = words[at];
    let Some(op) = op_in(first) else {
        return no_operation();
    };
    let second = limits_of(op).second;
    let word = word_at(words, at + 1);
    Fetched {
        instr: instr_in(second, op, first, word),
        words: size_of(second) as u32,
    }
}

// Which control operation an operation is, if it is one.
pub fn control_in(op: Op) -> Option<ControlOp>
    ensures { result ≡ control_in op }
{
    match op {
        Op::Control(o) => Some(o),
        _ => None,
    }
}
