// What the blocks see of an instruction. No other part of this crate looks at a word.
ghost use Rattle.std.specs.Prelude.{◌≡◌};
ghost use Rattle.blocks.specs.Item.{control_item, item_of, item_at};

use fetching::control_in;
use instructions::instr::{ControlOp, Op};
use instructions::registers::registers_below;
use refusals::{Refusal, Rule, broken};

// An instruction as far as blocks go: its width where it has no part in them. BREAK and CONTINUE are jumps.
#[derive(Clone, Copy)]
pub enum Item {
    Plain(usize),
    If,
    Else,
    Endif,
    Loop,
    Jump,
    Endloop,
}

// What code is checked for: register numbers below R. One number, but a type: theorems speak of it beside a list of words.
#[derive(Clone, Copy)]
pub struct Reading {
    pub registers: u32,
}

// A kernel's code, and what it is checked for.
#[derive(Clone, Copy)]
pub struct Code<'a> {
    pub words: &'a [u32],
    pub reading: Reading,
}

// What a control instruction is to the blocks.
fn control_item(op: ControlOp) -> Item
    ensures { result ≡ control_item op }
{
    match op {
        ControlOp::If => Item::If,
        ControlOp::Else => Item::Else,
        ControlOp::Endif => Item::Endif,
        ControlOp::Loop => Item::Loop,
        ControlOp::Break | ControlOp::Continue => Item::Jump,
        ControlOp::Endloop => Item::Endloop,
        ControlOp::Halt | ControlOp::Barrier | ControlOp::Nop => Item::Plain(1),
    }
}

// What an instruction of an operation and a width is to the blocks.
fn item_of(op: Op, width: usize) -> Item
    ensures { result ≡ item_of op width }
{
    match control_in(op) {
        Some(o) => control_item(o),
        None => Item::Plain(width),
    }
}

impl Code<'_> {
    // What stands at a place: refusals 4 to 6 as reading gives them (5 past the end), then 7.
    #[tactic(auto, unfolding(crate::specs::Item::item_at))]
    pub fn look(&self, at: usize) -> Result<Item, Refusal>
        ensures { result ≡ item_at self.now.words.now self.now.reading at }
    {
        let found = words::reading::read_at(self.words, at)?;
        if !registers_below(found.instr, self.reading.registers) {
            return Err(broken(Rule::Register, at));
        }
        Ok(item_of(found.instr.op, found.words as usize))
    }
}
