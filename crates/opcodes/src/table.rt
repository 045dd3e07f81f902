// The table of operations: from an opcode and a modifier to the operation, and back. By functions with a name, and not `From` and `TryFrom`: an
// operation has two numbers, and the type of each would say neither.
ghost use Rattle.std.specs.Prelude.{◌≡◌};
ghost use Rattle.opcodes.specs.Table.{two_code, compare_code, one_code, load_code, store_code, opcode_of, atomic_modifier, wave_modifier, control_modifier, modifier_of, sums, bitwise, moves, accesses, atomics, crossings, controls, in_registers, reaching, find, has, op_of};
ghost use Rattle.opcodes.specs.Named.{Named};

use instructions::instr::{AtomicOp, CompareOp, ControlOp, OneOp, Op, Space, TwoOp, WaveOp};

// The operation of an opcode 00 to 0F: those on numbers.
fn sum_op(opcode: u32) -> Option<Op>
    ensures { Named opcode_of sums opcode result }
{
    let op = match opcode {
        0x00 => Op::Two(TwoOp::Add),
        0x01 => Op::Two(TwoOp::Sub),
        0x02 => Op::Two(TwoOp::Mul),
        0x03 => Op::Two(TwoOp::Div),
        0x04 => Op::Two(TwoOp::Udiv),
        0x05 => Op::Two(TwoOp::Rem),
        0x06 => Op::Two(TwoOp::Urem),
        0x07 => Op::One(OneOp::Neg),
        0x08 => Op::One(OneOp::Abs),
        0x09 => Op::Two(TwoOp::Min),
        0x0A => Op::Two(TwoOp::Max),
        0x0B => Op::Two(TwoOp::Mulhi),
        _ => return None,
    };
    Some(op)
}

// The operation of an opcode 20 to 2F: those on bits, and the comparisons.
fn bitwise_op(opcode: u32) -> Option<Op>
    ensures { Named opcode_of bitwise opcode result }
{
    let op = match opcode {
        0x20 => Op::Two(TwoOp::And),
        0x21 => Op::Two(TwoOp::Or),
        0x22 => Op::Two(TwoOp::Xor),
        0x23 => Op::One(OneOp::Not),
        0x24 => Op::Two(TwoOp::Shl),
        0x25 => Op::Two(TwoOp::Shr),
        0x26 => Op::Two(TwoOp::Sar),
        0x27 => Op::One(OneOp::Popcnt),
        0x28 => Op::Compare(CompareOp::Eq),
        0x29 => Op::Compare(CompareOp::Ne),
        0x2A => Op::Compare(CompareOp::Lt),
        0x2B => Op::Compare(CompareOp::Ge),
        _ => return None,
    };
    Some(op)
}

// The operation of an opcode F0 to FF: the moves.
fn move_op(opcode: u32) -> Option<Op>
    ensures { Named opcode_of moves opcode result }
{
    let op = match opcode {
        0xF0 => Op::One(OneOp::Mov),
        0xF1 => Op::Number,
        0xF2 => Op::Special,
        _ => return None,
    };
    Some(op)
}

// The operation of an opcode 30 to 3F that has no modifiers: those of memory.
fn access_op(opcode: u32) -> Option<Op>
    ensures { Named opcode_of accesses opcode result }
{
    let op = match opcode {
        0x30 => Op::Load(Space::Device),
        0x31 => Op::Store(Space::Device),
        0x38 => Op::Load(Space::Local),
        0x39 => Op::Store(Space::Local),
        0x3D => Op::Cas,
        _ => return None,
    };
    Some(op)
}

// The operation of ATOMIC by its modifier. Each arm is the whole answer, as in `named_control`: put together after the match, it would go
// through memory at every step.
fn atomic_op(modifier: u32) -> Option<Op>
    ensures { Named modifier_of atomics modifier result }
{
    match modifier {
        0 => Some(Op::Atomic(AtomicOp::Add)),
        1 => Some(Op::Atomic(AtomicOp::Sub)),
        2 => Some(Op::Atomic(AtomicOp::And)),
        3 => Some(Op::Atomic(AtomicOp::Or)),
        4 => Some(Op::Atomic(AtomicOp::Xor)),
        5 => Some(Op::Atomic(AtomicOp::Min)),
        6 => Some(Op::Atomic(AtomicOp::Max)),
        7 => Some(Op::Atomic(AtomicOp::Umin)),
        8 => Some(Op::Atomic(AtomicOp::Umax)),
        9 => Some(Op::Atomic(AtomicOp::Xchg)),
        _ => None,
    }
}

// The wave operation by its modifier.
fn wave_op(modifier: u32) -> Option<Op>
    ensures { Named modifier_of crossings modifier result }
{
    match modifier {
        0 => Some(Op::Wave(WaveOp::Broadcast)),
        1 => Some(Op::Wave(WaveOp::ReduceAdd)),
        2 => Some(Op::Wave(WaveOp::ReduceMin)),
        3 => Some(Op::Wave(WaveOp::ReduceMax)),
        4 => Some(Op::Wave(WaveOp::PrefixSum)),
        5 => Some(Op::Shuffle),
        6 => Some(Op::Wave(WaveOp::Ballot)),
        7 => Some(Op::Wave(WaveOp::Any)),
        8 => Some(Op::Wave(WaveOp::All)),
        _ => None,
    }
}

// The operation of control by its modifier.
fn named_control(modifier: u32) -> Option<Op>
    ensures { Named modifier_of controls modifier result }
{
    match modifier {
        0 => Some(Op::Control(ControlOp::If)),
        1 => Some(Op::Control(ControlOp::Else)),
        2 => Some(Op::Control(ControlOp::Endif)),
        3 => Some(Op::Control(ControlOp::Loop)),
        4 => Some(Op::Control(ControlOp::Break)),
        5 => Some(Op::Control(ControlOp::Continue)),
        6 => Some(Op::Control(ControlOp::Endloop)),
        9 => Some(Op::Control(ControlOp::Halt)),
        10 => Some(Op::Control(ControlOp::Barrier)),
        15 => Some(Op::Control(ControlOp::Nop)),
        _ => None,
    }
}

// The operation of an opcode and a modifier among those that touch registers and predicates alone.
pub fn register_op(opcode: u32, modifier: u32) -> Option<Op>
    ensures { result ≡ find (has opcode modifier) in_registers }
{
    if modifier != 0 {
        return None;
    }
    if opcode < 0x10 {
        return sum_op(opcode);
    }
    if opcode < 0x30 {
        return bitwise_op(opcode);
    }
    move_op(opcode)
}

// The operation of an opcode and a modifier among those that reach memory and the other lanes.
pub fn reaching_op(opcode: u32, modifier: u32) -> Option<Op>
    ensures { result ≡ find (has opcode modifier) reaching }
{
    if opcode == 0x3C {
        return atomic_op(modifier);
    }
    if opcode == 0x3E {
        return wave_op(modifier);
    }
    if modifier == 0 {
        return access_op(opcode);
    }
    None
}

// The operation of control with this modifier.
pub fn control_op(modifier: u32) -> Option<Op>
    ensures { result ≡ find (has 0x3F modifier) controls }
{
    named_control(modifier)
}

// The operation of an opcode and a modifier.
pub fn op_of(opcode: u32, modifier: u32) -> Option<Op>
    ensures { result ≡ op_of opcode modifier }
{
    if opcode == 0x3F {
        return control_op(modifier);
    }
    if opcode / 16 == 3 {
        return reaching_op(opcode, modifier);
    }
    register_op(opcode, modifier)
}

// The opcodes of two words, RS2.
fn two_code(op: TwoOp) -> u32
    ensures { result ≡ two_code op }
{
    match op {
        TwoOp::Add => 0x00,
        TwoOp::Sub => 0x01,
        TwoOp::Mul => 0x02,
        TwoOp::Div => 0x03,
        TwoOp::Udiv => 0x04,
        TwoOp::Rem => 0x05,
        TwoOp::Urem => 0x06,
        TwoOp::Min => 0x09,
        TwoOp::Max => 0x0A,
        TwoOp::Mulhi => 0x0B,
        TwoOp::And => 0x20,
        TwoOp::Or => 0x21,
        TwoOp::Xor => 0x22,
        TwoOp::Shl => 0x24,
        TwoOp::Shr => 0x25,
        TwoOp::Sar => 0x26,
    }
}

// The opcodes of the comparisons.
fn compare_code(op: CompareOp) -> u32
    ensures { result ≡ compare_code op }
{
    match op {
        CompareOp::Eq => 0x28,
        CompareOp::Ne => 0x29,
        CompareOp::Lt => 0x2A,
        CompareOp::Ge => 0x2B,
    }
}

// The opcodes of one word.
fn one_code(op: OneOp) -> u32
    ensures { result ≡ one_code op }
{
    match op {
        OneOp::Neg => 0x07,
        OneOp::Abs => 0x08,
        OneOp::Not => 0x23,
        OneOp::Popcnt => 0x27,
        OneOp::Mov => 0xF0,
    }
}

// The opcodes of LOAD and LOCAL_LOAD.
fn load_code(space: Space) -> u32
    ensures { result ≡ load_code space }
{
    match space {
        Space::Device => 0x30,
        Space::Local => 0x38,
    }
}

// The opcodes of STORE and LOCAL_STORE.
fn store_code(space: Space) -> u32
    ensures { result ≡ store_code space }
{
    match space {
        Space::Device => 0x31,
        Space::Local => 0x39,
    }
}

// The opcode of an operation.
pub fn opcode_of(op: Op) -> u32
    ensures { result ≡ opcode_of op }
{
    match op {
        Op::Two(o) => two_code(o),
        Op::Compare(o) => compare_code(o),
        Op::One(o) => one_code(o),
        Op::Special => 0xF2,
        Op::Load(s) => load_code(s),
        Op::Store(s) => store_code(s),
        Op::Number => 0xF1,
        Op::Atomic(_) => 0x3C,
        Op::Cas => 0x3D,
        Op::Wave(_) => 0x3E,
        Op::Shuffle => 0x3E,
        Op::Control(_) => 0x3F,
    }
}

// The modifiers of ATOMIC.
fn atomic_modifier(op: AtomicOp) -> u32
    ensures { result ≡ atomic_modifier op }
{
    match op {
        AtomicOp::Add => 0,
        AtomicOp::Sub => 1,
        AtomicOp::And => 2,
        AtomicOp::Or => 3,
        AtomicOp::Xor => 4,
        AtomicOp::Min => 5,
        AtomicOp::Max => 6,
        AtomicOp::Umin => 7,
        AtomicOp::Umax => 8,
        AtomicOp::Xchg => 9,
    }
}

// The modifiers of the wave operations; SHUFFLE's is 5.
fn wave_modifier(op: WaveOp) -> u32
    ensures { result ≡ wave_modifier op }
{
    match op {
        WaveOp::Broadcast => 0,
        WaveOp::ReduceAdd => 1,
        WaveOp::ReduceMin => 2,
        WaveOp::ReduceMax => 3,
        WaveOp::PrefixSum => 4,
        WaveOp::Ballot => 6,
        WaveOp::Any => 7,
        WaveOp::All => 8,
    }
}

// The modifiers of control.
fn control_modifier(op: ControlOp) -> u32
    ensures { result ≡ control_modifier op }
{
    match op {
        ControlOp::If => 0,
        ControlOp::Else => 1,
        ControlOp::Endif => 2,
        ControlOp::Loop => 3,
        ControlOp::Break => 4,
        ControlOp::Continue => 5,
        ControlOp::Endloop => 6,
        ControlOp::Halt => 9,
        ControlOp::Barrier => 10,
        ControlOp::Nop => 15,
    }
}

// The modifier of an operation, 0 where none is listed.
pub fn modifier_of(op: Op) -> u32
    ensures { result ≡ modifier_of op }
{
    match op {
        Op::Two(_) => 0,
        Op::Compare(_) => 0,
        Op::One(_) => 0,
        Op::Special => 0,
        Op::Load(_) => 0,
        Op::Store(_) => 0,
        Op::Number => 0,
        Op::Atomic(o) => atomic_modifier(o),
        Op::Cas => 0,
        Op::Wave(o) => wave_modifier(o),
        Op::Shuffle => 5,
        Op::Control(o) => control_modifier(o),
    }
}
