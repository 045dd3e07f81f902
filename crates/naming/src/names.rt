// The names of operations.
ghost use Rattle.std.specs.Prelude.{◌≡◌};
ghost use Rattle.texts.specs.Names.{two_name, compare_name, one_name, space_name, atomic_name, wave_name, control_name, name_of};
ghost use Rattle.naming.specs.Line.{Adds};

use crate::line::Line;
use instructions::instr::{AtomicOp, CompareOp, ControlOp, OneOp, Op, Space, TwoOp, WaveOp};

// The name of an operation of two registers.
fn two_name(op: TwoOp) -> &'static str
    ensures { result.now ≡ two_name op }
{
    match op {
        TwoOp::Add => "ADD",
        TwoOp::Sub => "SUB",
        TwoOp::Mul => "MUL",
        TwoOp::Div => "DIV",
        TwoOp::Udiv => "UDIV",
        TwoOp::Rem => "REM",
        TwoOp::Urem => "UREM",
        TwoOp::Min => "MIN",
        TwoOp::Max => "MAX",
        TwoOp::Mulhi => "MULHI",
        TwoOp::And => "AND",
        TwoOp::Or => "OR",
        TwoOp::Xor => "XOR",
        TwoOp::Shl => "SHL",
        TwoOp::Shr => "SHR",
        TwoOp::Sar => "SAR",
    }
}

// The name of a comparison.
fn compare_name(op: CompareOp) -> &'static str
    ensures { result.now ≡ compare_name op }
{
    match op {
        CompareOp::Eq => "EQ",
        CompareOp::Ne => "NE",
        CompareOp::Lt => "LT",
        CompareOp::Ge => "GE",
    }
}

// The name of an operation of one register.
fn one_name(op: OneOp) -> &'static str
    ensures { result.now ≡ one_name op }
{
    match op {
        OneOp::Neg => "NEG",
        OneOp::Abs => "ABS",
        OneOp::Not => "NOT",
        OneOp::Popcnt => "POPCNT",
        OneOp::Mov => "MOV",
    }
}

// The name of a memory, before LOAD and STORE.
fn space_name(op: Space) -> &'static str
    ensures { result.now ≡ space_name op }
{
    match op {
        Space::Device => "",
        Space::Local => "LOCAL_",
    }
}

// The name of an operation of ATOMIC.
fn atomic_name(op: AtomicOp) -> &'static str
    ensures { result.now ≡ atomic_name op }
{
    match op {
        AtomicOp::Add => "ADD",
        AtomicOp::Sub => "SUB",
        AtomicOp::And => "AND",
        AtomicOp::Or => "OR",
        AtomicOp::Xor => "XOR",
        AtomicOp::Min => "MIN",
        AtomicOp::Max => "MAX",
        AtomicOp::Umin => "UMIN",
        AtomicOp::Umax => "UMAX",
        AtomicOp::Xchg => "XCHG",
    }
}

// The name of a wave operation.
fn wave_name(op: WaveOp) -> &'static str
    ensures { result.now ≡ wave_name op }
{
    match op {
        WaveOp::Broadcast => "BROADCAST",
        WaveOp::ReduceAdd => "REDUCE_ADD",
        WaveOp::ReduceMin => "REDUCE_MIN",
        WaveOp::ReduceMax => "REDUCE_MAX",
        WaveOp::PrefixSum => "PREFIX_SUM",
        WaveOp::Ballot => "BALLOT",
        WaveOp::Any => "ANY",
        WaveOp::All => "ALL",
    }
}

// The name of a control instruction.
fn control_name(op: ControlOp) -> &'static str
    ensures { result.now ≡ control_name op }
{
    match op {
        ControlOp::If => "IF",
        ControlOp::Else => "ELSE",
        ControlOp::Endif => "ENDIF",
        ControlOp::Loop => "LOOP",
        ControlOp::Break => "BREAK",
        ControlOp::Continue => "CONTINUE",
        ControlOp::Endloop => "ENDLOOP",
        ControlOp::Halt => "HALT",
        ControlOp::Barrier => "BARRIER",
        ControlOp::Nop => "NOP",
    }
}

// Puts the name of an operation.
pub(crate) fn put_name(line: &mut Line, op: Op)
    ensures { Adds line.old (name_of op) line.new }
{
    match op {
        Op::Two(o) => line.put(two_name(o)),
        Op::Compare(o) => line.put(compare_name(o)),
        Op::One(o) => line.put(one_name(o)),
        Op::Special => line.put("MOV_SPECIAL"),
        Op::Number => line.put("MOV_IMM"),
        Op::Load(s) => {
            line.put(space_name(s));
            line.put("LOAD");
        }
        Op::Store(s) => {
            line.put(space_name(s));
            line.put("STORE");
        }
        Op::Atomic(o) => {
            line.put("ATOMIC_");
            line.put(atomic_name(o));
        }
        Op::Cas => line.put("CAS"),
        Op::Wave(o) => line.put(wave_name(o)),
        Op::Shuffle => line.put("SHUFFLE"),
        Op::Control(o) => line.put(control_name(o)),
    }
}
