// Reading one instruction from its words.
ghost use Rattle.std.specs.Prelude.{◌≡◌, get_or};
ghost use Rattle.words.specs.Layout.{guard_in, headed, instr_in, second_spare, spare_zero};
ghost use Rattle.words.specs.Reading.{read_fields, read_at};

use instructions::forms::{Limits, Second, fits, limits_of, size_of};
use instructions::instr::{Guard, Instr, Op};
use opcodes::table::op_of;
use refusals::{Refusal, Rule, broken};

// An instruction, and how many words it has.
#[derive(Clone, Copy)]
pub struct Fetched {
    pub instr: Instr,
    pub words: u32,
}

// The word at a place, 0 past the end.
pub fn word_at(words: &[u32], at: usize) -> u32
    ensures { result ≡ get_or words.now at 0 }
{
    if at < words.len() { words[at] } else { 0 }
}

// Negate and predicate of word 0.
fn guard_in(first: u32) -> Guard
    ensures { result ≡ guard_in first }
{
    Guard {
        pred: (first % 4) as u8,
        negate: first / 4 % 2 == 1,
    }
}

// The instruction of word 0, with the fields of word 1.
fn headed(op: Op, first: u32, rs2: u8, rs3: u8, scope: u8, number: u32) -> Instr
    ensures { result ≡ headed op first rs2 rs3 scope number }
{
    Instr {
        op,
        guard: guard_in(first),
        rd: (first / 0x10000 % 256) as u8,
        rs1: (first / 0x100 % 256) as u8,
        rs2,
        rs3,
        scope,
        number,
    }
}

// The instruction of both words; `word` counts only where there is a second word.
pub fn instr_in(second: Second, op: Op, first: u32, word: u32) -> Instr
    ensures { result ≡ instr_in second op first word }
{
    match second {
        Second::Nothing => headed(op, first, 0, 0, 0, 0),
        Second::Number => headed(op, first, 0, 0, 0, word),
        Second::Registers(..) => {
            let rs2 = (word / 0x1000000) as u8;
            let rs3 = (word / 0x10000 % 256) as u8;
            let scope = (word % 4) as u8;
            headed(op, first, rs2, rs3, scope, 0)
        }
    }
}

// Whether RS4 and bits 7:2 of a register-form word 1 are zero.
fn second_spare(second: Second, word: u32) -> bool
    ensures { result ≡ second_spare second word }
{
    match second {
        Second::Nothing => true,
        Second::Number => true,
        Second::Registers(..) => (word / 0x100 % 256 == 0) & (word / 4 % 64 == 0),
    }
}

// Whether the bits that no instruction uses are zero.
fn spare_zero(second: Second, first: u32, word: u32) -> bool
    ensures { result ≡ spare_zero second first word }
{
    (first / 8 % 2 == 0) & second_spare(second, word)
}

// What the words of an operation with these limits say, or a refusal at `at`.
fn read_fields(op: Op, limits: Limits, first: u32, word: u32, at: usize) -> Result<Fetched, Refusal>
    ensures { result ≡ read_fields op limits first word at }
{
    let second = limits.second;
    let instr = instr_in(second, op, first, word);
    if spare_zero(second, first, word) & fits(limits, instr) {
        Ok(Fetched {
            instr,
            words: size_of(second) as u32,
        })
    } else {
        Err(broken(Rule::Field, at))
    }
}

// The instruction whose first word stands at `at`. A refusal's place is `at`; a place past the words is refused as a missing word.
pub fn read_at(words: &[u32], at: usize) -> Result<Fetched, Refusal>
    ensures { result ≡ read_at words.now at }
{
    if words.len() <= at {
        return Err(broken(Rule::NoSecond, at));
    }
    let first = words[at];
    let Some(op) = op_of(first / 0x1000000, first / 16 % 16) else {
        return Err(broken(Rule::NotCarried, at));
    };
    let limits = limits_of(op);
    if words.len() - at < size_of(limits.second) {
        return Err(broken(Rule::NoSecond, at));
    }
    let word = word_at(words, at + 1);
    read_fields(op, limits, first, word, at)
}

// The instruction that the words start with; words after it are not looked at.
pub fn read(words: &[u32]) -> Result<Fetched, Refusal>
    ensures { result ≡ read_at words.now 0 }
{
    read_at(words, 0)
}
