// An instruction: its operation, the lanes that it is for, and its fields.

// The operations of two registers, RS1 and RS2.
#[derive(Clone, Copy)]
pub enum TwoOp {
    Add,
    Sub,
    Mul,
    Div,
    Udiv,
    Rem,
    Urem,
    Min,
    Max,
    Mulhi,
    And,
    Or,
    Xor,
    Shl,
    Shr,
    Sar,
}

// The comparisons: their RD is a predicate.
#[derive(Clone, Copy)]
pub enum CompareOp {
    Eq,
    Ne,
    Lt,
    Ge,
}

// The operations of one register, RS1.
#[derive(Clone, Copy)]
pub enum OneOp {
    Neg,
    Abs,
    Not,
    Popcnt,
    Mov,
}

// What ATOMIC does to a word of device memory.
#[derive(Clone, Copy)]
pub enum AtomicOp {
    Add,
    Sub,
    And,
    Or,
    Xor,
    Min,
    Max,
    Umin,
    Umax,
    Xchg,
}

// What a wave operation makes of RS1 of the executing lanes.
#[derive(Clone, Copy)]
pub enum WaveOp {
    Broadcast,
    ReduceAdd,
    ReduceMin,
    ReduceMax,
    PrefixSum,
    Ballot,
    Any,
    All,
}

// The control instructions.
#[derive(Clone, Copy)]
pub enum ControlOp {
    If,
    Else,
    Endif,
    Loop,
    Break,
    Continue,
    Endloop,
    Halt,
    Barrier,
    Nop,
}

// The memory that a load or a store is for.
#[derive(Clone, Copy)]
pub enum Space {
    Device,
    Local,
}

// What an opcode and a modifier name together. SHUFFLE is the wave operation that uses RS2.
#[derive(Clone, Copy)]
pub enum Op {
    Two(TwoOp),
    Compare(CompareOp),
    One(OneOp),
    Special,
    Number,
    Load(Space),
    Store(Space),
    Atomic(AtomicOp),
    Cas,
    Wave(WaveOp),
    Shuffle,
    Control(ControlOp),
}

// The lanes that an instruction is for: predicate 0, not negated, is every lane.
#[derive(Clone, Copy)]
pub struct Guard {
    pub pred: u8,
    pub negate: bool,
}

// One instruction. A field that its operation does not use is zero.
#[derive(Clone, Copy)]
pub struct Instr {
    pub op: Op,
    pub guard: Guard,
    pub rd: u8,
    pub rs1: u8,
    pub rs2: u8,
    pub rs3: u8,
    pub scope: u8,
    pub number: u32,
}
