// The rules of blocks, for one instruction at one level of nesting.
ghost use Rattle.std.specs.Prelude.{◌≡◌};
ghost use Rattle.blocks.specs.Open.{part_number};
ghost use Rattle.blocks.specs.Rules.{opening, at_else, at_endif, at_endloop, judged};

use crate::item::Item;
use lanes::said::{AFTER_ELSE, BEFORE_ELSE, LOOP};
use refusals::{Refusal, Rule, broken};

// The part of a block that an instruction stands directly inside: an IF before its ELSE, an IF after it, a loop.
#[derive(Clone, Copy, Debug, PartialEq, Eq)]
pub enum Part {
    Before,
    After,
    Loop,
}

// The page's number of a part: 1 before ELSE, 2 after, 3 loop.
impl From<Part> for u32 {
    ghost from_gives = { λ part number. number ≡ part_number part };

    fn from(part: Part) -> u32 {
        match part {
            Part::Before => BEFORE_ELSE,
            Part::After => AFTER_ELSE,
            Part::Loop => LOOP,
        }
    }
}

// What an instruction means for the level that it stands in: go on, so many words further and in this part; the block is closed;
// a block is opened, with its part and whether it is in a loop.
#[derive(Clone, Copy)]
pub enum Turn {
    Go(usize, Option<Part>),
    Close,
    Enter(Part, bool),
}

// IF and LOOP: no 33rd open block.
fn at_opener(at: usize, room: usize, part: Part, in_loop: bool) -> Result<Turn, Refusal>
    ensures { result ≡ opening at room part in_loop }
{
    if room == 0 {
        Err(broken(Rule::Depth, at))
    } else {
        Ok(Turn::Enter(part, in_loop))
    }
}

// ELSE: once, directly in its IF.
fn at_else(stray: Refusal, inside: Option<Part>) -> Result<Turn, Refusal>
    ensures { result ≡ at_else stray inside }
{
    match inside {
        Some(Part::Before) => Ok(Turn::Go(1, Some(Part::After))),
        Some(Part::After | Part::Loop) | None => Err(stray),
    }
}

// ENDIF: directly in an IF.
fn at_endif(stray: Refusal, inside: Option<Part>) -> Result<Turn, Refusal>
    ensures { result ≡ at_endif stray inside }
{
    match inside {
        Some(Part::Before | Part::After) => Ok(Turn::Close),
        Some(Part::Loop) | None => Err(stray),
    }
}

// ENDLOOP: directly in a loop.
fn at_endloop(stray: Refusal, inside: Option<Part>) -> Result<Turn, Refusal>
    ensures { result ≡ at_endloop stray inside }
{
    match inside {
        Some(Part::Loop) => Ok(Turn::Close),
        Some(Part::Before | Part::After) | None => Err(stray),
    }
}

// What stands at a place, where so much room is left, directly inside this, and in a loop or not: what the instruction means, or the refusal,
// its own where none stands there.
pub fn judge(
    seen: Result<Item, Refusal>,
    at: usize,
    room: usize,
    inside: Option<Part>,
    in_loop: bool,
) -> Result<Turn, Refusal>
    ensures { result ≡ judged seen at room inside in_loop }
{
    let stray = broken(Rule::Stray, at);
    match seen? {
        Item::Plain(width) => Ok(Turn::Go(width, inside)),
        Item::If => at_opener(at, room, Part::Before, in_loop),
        Item::Else => at_else(stray, inside),
        Item::Endif => at_endif(stray, inside),
        Item::Loop => at_opener(at, room, Part::Loop, true),
        Item::Jump => if in_loop {
            Ok(Turn::Go(1, inside))
        } else {
            Err(stray)
        },
        Item::Endloop => at_endloop(stray, inside),
    }
}
