// Which fields of an instruction are registers: those that refusal 7 tests, and that gathering and writing use.
ghost use Rattle.std.specs.Prelude.{◌≡◌};
ghost use Rattle.instructions.specs.Registers.{registers, registers_of, below, registers_below};

use crate::instr::{Instr, Op};

// For each field, whether it is a register.
#[derive(Clone, Copy)]
pub struct Registers {
    pub rd: bool,
    pub rs1: bool,
    pub rs2: bool,
    pub rs3: bool,
}

// The four in order.
fn fields(rd: bool, rs1: bool, rs2: bool, rs3: bool) -> Registers
    ensures { result ≡ registers rd rs1 rs2 rs3 }
{
    Registers { rd, rs1, rs2, rs3 }
}

// Which fields of an operation are registers. RD of a comparison is a predicate, RS1 of MOV_SPECIAL a special number.
pub fn registers_of(op: Op) -> Registers
    ensures { result ≡ registers_of op }
{
    match op {
        Op::Two(_) => fields(true, true, true, false),
        Op::Compare(_) => fields(false, true, true, false),
        Op::One(_) => fields(true, true, false, false),
        Op::Special => fields(true, false, false, false),
        Op::Load(_) => fields(true, true, false, false),
        Op::Store(_) => fields(true, true, false, false),
        Op::Number => fields(true, false, false, false),
        Op::Atomic(_) => fields(true, true, true, false),
        Op::Cas => fields(true, true, true, true),
        Op::Wave(_) => fields(true, true, false, false),
        Op::Shuffle => fields(true, true, true, false),
        Op::Control(_) => fields(false, false, false, false),
    }
}

// Whether a field is below the number of registers, if it is a register.
fn field_below(used: bool, field: u8, registers: u32) -> bool
    ensures { result ≡ below registers used field }
{
    !used | ((field as u32) < registers)
}

// Whether every register of an instruction is below the number of registers.
pub fn registers_below(instr: Instr, registers: u32) -> bool
    ensures { result ≡ registers_below registers instr }
{
    let used = registers_of(instr.op);
    field_below(used.rd, instr.rd, registers)
        & field_below(used.rs1, instr.rs1, registers)
        & field_below(used.rs2, instr.rs2, registers)
        & field_below(used.rs3, instr.rs3, registers)
}
