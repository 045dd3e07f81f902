// Writing one instruction as its words.
ghost use Rattle.std.specs.Prelude.{◌≡◌, get_or};
ghost use Rattle.words.specs.Layout.{negate_bit, first_word, rest_of};
ghost use Rattle.words.specs.Writing.{written, write_of};

use instructions::forms::{Second, is_valid, limits_of, size_of};
use instructions::instr::{Guard, Instr};
use opcodes::table::{modifier_of, opcode_of};
use refusals::{Refusal, Rule, broken};

// Negate in its place in word 0.
fn negate_bit(guard: Guard) -> u32
    ensures { result ≡ negate_bit guard }
{
    if guard.negate { 4 } else { 0 }
}

// Word 0.
fn first_word(instr: Instr) -> u32
    ensures { result ≡ first_word instr }
{
    opcode_of(instr.op) * 0x1000000
        + (instr.rd as u32) * 0x10000
        + (instr.rs1 as u32) * 0x100
        + modifier_of(instr.op) * 0x10
        + negate_bit(instr.guard)
        + (instr.guard.pred as u32)
}

// Word 1, 0 where there is none.
fn second_word(second: Second, instr: Instr) -> u32
    ensures { result ≡ get_or (rest_of second instr) 0 0 }
{
    match second {
        Second::Nothing => 0,
        Second::Number => instr.number,
        Second::Registers(..) => {
            (instr.rs2 as u32) * 0x1000000 + (instr.rs3 as u32) * 0x10000 + (instr.scope as u32)
        }
    }
}

// Puts the words of an instruction at the start of `out`, and answers how many they are. What stands after them stays; a refusal changes nothing.
pub fn write(instr: Instr, out: &mut [u32]) -> Result<usize, Refusal>
    ensures { written result out.new ≡ write_of instr out.old }
{
    if !is_valid(instr) {
        return Err(broken(Rule::NoWords, 0));
    }
    let second = limits_of(instr.op).second;
    let size = size_of(second);
    if out.len() < size {
        return Err(broken(Rule::Short, 0));
    }
    out[0] = first_word(instr);
    if size == 2 {
        out[1] = second_word(second, instr);
    }
    Ok(size)
}
