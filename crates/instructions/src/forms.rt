// The forms: how many words an operation has, and how large its fields may be.
ghost use Rattle.std.specs.Prelude.{◌≡◌};
ghost use Rattle.instructions.specs.Forms.{form, need_of, limits_of, size_of, need_met, guard_fits, second_fits, fits, valid};

use crate::instr::{ControlOp, Guard, Instr, Op};

// The predicates that an operation allows: any, 1 to 3, or 0 alone.
#[derive(Clone, Copy)]
pub enum Need {
    Any,
    NotZero,
    Zero,
}

// What the second word of an operation is. Of registers: how large RS2, RS3 and the scope may be.
#[derive(Clone, Copy)]
pub enum Second {
    Nothing,
    Number,
    Registers(u8, u8, u8),
}

// How large the fields of an operation may be, 0 where it does not use one. RD is at least `least`.
#[derive(Clone, Copy)]
pub struct Limits {
    pub least: u8,
    pub rd: u8,
    pub rs1: u8,
    pub need: Need,
    pub second: Second,
}

// The last of 256 registers.
const REGISTER: u8 = 255;
// The largest scope.
const SCOPE: u8 = 3;

// Limits from their parts.
fn form(least: u8, rd: u8, rs1: u8, need: Need, second: Second) -> Limits
    ensures { result ≡ form least rd rs1 need second }
{
    Limits {
        least,
        rd,
        rs1,
        need,
        second,
    }
}

// The predicates that a control instruction allows.
fn need_of(op: ControlOp) -> Need
    ensures { result ≡ need_of op }
{
    match op {
        ControlOp::If => Need::NotZero,
        ControlOp::Else => Need::Zero,
        ControlOp::Endif => Need::Zero,
        ControlOp::Loop => Need::Zero,
        ControlOp::Break => Need::Any,
        ControlOp::Continue => Need::Any,
        ControlOp::Endloop => Need::Zero,
        ControlOp::Halt => Need::Any,
        ControlOp::Barrier => Need::Zero,
        ControlOp::Nop => Need::Zero,
    }
}

// The limits of an operation's fields.
pub fn limits_of(op: Op) -> Limits
    ensures { result ≡ limits_of op }
{
    match op {
        Op::Two(_) => form(
            0,
            REGISTER,
            REGISTER,
            Need::Any,
            Second::Registers(REGISTER, 0, 0),
        ),
        Op::Compare(_) => form(1, 3, REGISTER, Need::Any, Second::Registers(REGISTER, 0, 0)),
        Op::One(_) => form(0, REGISTER, REGISTER, Need::Any, Second::Nothing),
        Op::Special => form(0, REGISTER, 2, Need::Any, Second::Nothing),
        Op::Load(_) => form(0, REGISTER, REGISTER, Need::Any, Second::Number),
        Op::Store(_) => form(0, REGISTER, REGISTER, Need::Any, Second::Number),
        Op::Number => form(0, REGISTER, 0, Need::Any, Second::Number),
        Op::Atomic(_) => form(
            0,
            REGISTER,
            REGISTER,
            Need::Any,
            Second::Registers(REGISTER, 0, SCOPE),
        ),
        Op::Cas => form(
            0,
            REGISTER,
            REGISTER,
            Need::Any,
            Second::Registers(REGISTER, REGISTER, SCOPE),
        ),
        Op::Wave(_) => form(0, REGISTER, REGISTER, Need::Any, Second::Registers(0, 0, 0)),
        Op::Shuffle => form(
            0,
            REGISTER,
            REGISTER,
            Need::Any,
            Second::Registers(REGISTER, 0, 0),
        ),
        Op::Control(o) => form(0, 0, 0, need_of(o), Second::Nothing),
    }
}

// How many words an operation has: one or two.
pub fn size_of(second: Second) -> usize
    ensures { result ≡ size_of second }
{
    match second {
        Second::Nothing => 1,
        Second::Number => 2,
        Second::Registers(..) => 2,
    }
}

// Whether a predicate is one that is needed.
fn need_met(need: Need, pred: u8) -> bool
    ensures { result ≡ need_met need pred }
{
    match need {
        Need::Any => true,
        Need::NotZero => pred != 0,
        Need::Zero => pred == 0,
    }
}

// Whether a predicate is 0 to 3, with 0 not negated, and one that is needed.
fn guard_fits(need: Need, guard: Guard) -> bool
    ensures { result ≡ guard_fits need guard }
{
    (guard.pred < 4) & (!((guard.pred == 0) & guard.negate) & need_met(need, guard.pred))
}

// Whether the fields of word 1 keep to their limits.
fn second_fits(second: Second, i: Instr) -> bool
    ensures { result ≡ second_fits second i }
{
    match second {
        Second::Nothing => (i.rs2 == 0) & ((i.rs3 == 0) & ((i.scope == 0) & (i.number == 0))),
        Second::Number => (i.rs2 == 0) & ((i.rs3 == 0) & (i.scope == 0)),
        Second::Registers(rs2, rs3, scope) => {
            (i.rs2 <= rs2) & ((i.rs3 <= rs3) & ((i.scope <= scope) & (i.number == 0)))
        }
    }
}

// Whether every field keeps to its limits.
pub fn fits(limits: Limits, i: Instr) -> bool
    ensures { result ≡ fits limits i }
{
    guard_fits(limits.need, i.guard)
        & ((limits.least <= i.rd)
            & ((i.rd <= limits.rd) & ((i.rs1 <= limits.rs1) & second_fits(limits.second, i))))
}

// Whether words give this instruction, with 256 registers.
pub fn is_valid(instr: Instr) -> bool
    ensures { result ≡ valid instr }
{
    fits(limits_of(instr.op), instr)
}
