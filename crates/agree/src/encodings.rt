// Cases about one instruction: reading it, writing it, its text. Each puts its answer; none where a case has more words or room than there is
// here, or no operation has its number.
use crate::format::{Answer, LENT_WORD, number, take_words};
use instructions::instr::{Guard, Instr, Op};
use naming::write_text;
use opcodes::table::{modifier_of, op_of, opcode_of};
use words::reading::read;
use words::writing::write;

// The most words that a case has, and the largest room.
const MOST_WORDS: usize = 64;

// The number of an operation, as the format has it: its opcode times 16, and its modifier.
fn operation_number(op: Op) -> u32 {
    opcode_of(op) * 16 + modifier_of(op)
}

// Puts an instruction's nine numbers.
fn put_instruction(to: &mut Answer, instr: Instr) {
    let op = instr.op;
    let guard = instr.guard;
    to.put(&[
        operation_number(op),
        instr.rd as u32,
        instr.rs1 as u32,
        instr.rs2 as u32,
        instr.rs3 as u32,
        instr.number,
        instr.scope as u32,
        guard.pred as u32,
        u32::from(guard.negate),
    ]);
}

// Puts what the words say, which are taken from the case.
fn read_words(case: &[u8], words: &mut [u32], to: &mut Answer) {
    take_words(case, 4, words);
    match read(words) {
        Ok(found) => {
            to.put_length(Ok(found.words as usize));
            put_instruction(to, found.instr);
        }
        Err(refusal) => {
            to.put_length(Err(refusal));
            to.put(&[0; 9]);
        }
    }
}

// The instruction that a case's words start with.
pub(crate) fn answer_read(case: &[u8], to: &mut Answer) -> Option<()> {
    let mut words = [0u32; MOST_WORDS];
    let words = words.get_mut(..number(case, 0) as usize)?;
    read_words(case, words, to);
    Some(())
}

// A field of an instruction, which has one byte.
fn field(n: u32) -> u8 {
    (n % 256) as u8
}

// Whether the fields of a case's instruction have one byte each.
fn fields_fit(case: &[u8]) -> bool {
    (number(case, 1) < 256)
        & (number(case, 2) < 256)
        & (number(case, 3) < 256)
        & (number(case, 4) < 256)
        & (number(case, 6) < 256)
        & (number(case, 7) < 256)
}

// The lanes that a case's instruction is for. A field of more than a byte is in no instruction here, and no words give it: such a case is
// asked with predicate 255 instead, which no words give either.
fn guard_of(case: &[u8]) -> Guard {
    let pred = if fields_fit(case) {
        field(number(case, 7))
    } else {
        255
    };
    Guard {
        pred,
        negate: number(case, 8) == 1,
    }
}

// The instruction of a case; none where no operation has its number.
fn instruction_of(case: &[u8]) -> Option<Instr> {
    let operation = number(case, 0);
    Some(Instr {
        op: op_of(operation / 16, operation % 16)?,
        guard: guard_of(case),
        rd: field(number(case, 1)),
        rs1: field(number(case, 2)),
        rs2: field(number(case, 3)),
        rs3: field(number(case, 4)),
        scope: field(number(case, 6)),
        number: number(case, 5),
    })
}

// The words of a case's instruction, written in a room of A5. The room's words are part of the answer.
pub(crate) fn answer_write(case: &[u8], to: &mut Answer) -> Option<()> {
    let instr = instruction_of(case)?;
    let mut room = [LENT_WORD; MOST_WORDS];
    let room = room.get_mut(..number(case, 9) as usize)?;
    to.put_length(write(instr, room));
    to.put(room);
    Some(())
}

// The text of a case's instruction. The bytes of the room that it is written in are part of the answer.
pub(crate) fn answer_text(case: &[u8], to: &mut Answer) -> Option<()> {
    let instr = instruction_of(case)?;
    to.put_written(number(case, 9) as usize, |room| write_text(instr, room))
}
