// The operands of an instruction, and the marks between them.
ghost use Rattle.std.specs.Prelude.{◌≡◌, [], get_or};
ghost use Rattle.texts.specs.Text.{specials, operands};
ghost use Rattle.texts.specs.Templates.{template};
ghost use Rattle.naming.specs.Line.{Adds};
ghost use Rattle.naming.specs.Parts.{part_text, parts_text};

use crate::line::Line;
use instructions::instr::{Instr, Op};

// A mark as it stands, the name of a special number, or a number behind its mark.
#[derive(Clone, Copy)]
pub(crate) enum Part {
    Mark(&'static str),
    Special(u8),
    Number(&'static str, u32),
}

// The name of a special number.
fn special_name(n: u8) -> &'static str
    ensures { result.now ≡ get_or specials n [] }
{
    match n {
        0 => "lane",
        1 => "wave",
        2 => "waves",
        _ => "",
    }
}

// Puts a part.
fn put_part(line: &mut Line, part: Part)
    ensures { Adds line.old (part_text part) line.new }
{
    match part {
        Part::Mark(mark) => line.put(mark),
        Part::Special(n) => line.put(special_name(n)),
        Part::Number(mark, n) => line.put_numbered(mark, n),
    }
}

// Puts parts one behind another.
fn put_parts(line: &mut Line, parts: &[Part])
    ensures { Adds line.old (parts_text parts.now) line.new }
{
    for part in parts {
        put_part(line, *part);
    }
}

// Puts the operands, by the form of the operation. The mark before a number and the letter of its kind are one text.
#[tactic(auto, unfolding(texts::specs::Text::operands))]
pub(crate) fn put_operands(line: &mut Line, i: Instr)
    ensures { Adds line.old (operands (template i.op) i []) line.new }
{
    let rd = Part::Number(" r", i.rd as u32);
    let rs1 = Part::Number(", r", i.rs1 as u32);
    let rs2 = Part::Number(", r", i.rs2 as u32);
    let rs3 = Part::Number(", r", i.rs3 as u32);
    let address = Part::Number(", [r", i.rs1 as u32);
    let offset = Part::Number(" + ", i.number);
    let past_address = Part::Number("], r", i.rs2 as u32);
    match i.op {
        Op::Two(_) | Op::Shuffle => put_parts(line, &[rd, rs1, rs2]),
        Op::Compare(_) => put_parts(line, &[Part::Number(" p", i.rd as u32), rs1, rs2]),
        Op::One(_) | Op::Wave(_) => put_parts(line, &[rd, rs1]),
        Op::Special => put_parts(line, &[rd, Part::Mark(", "), Part::Special(i.rs1)]),
        Op::Number => put_parts(line, &[rd, Part::Number(", ", i.number)]),
        Op::Load(_) => put_parts(line, &[rd, address, offset, Part::Mark("]")]),
        Op::Store(_) => put_parts(
            line,
            &[
                Part::Number(" [r", i.rs1 as u32),
                offset,
                Part::Number("], r", i.rd as u32),
            ],
        ),
        Op::Atomic(_) => put_parts(line, &[rd, address, past_address]),
        Op::Cas => put_parts(line, &[rd, address, past_address, rs3]),
        Op::Control(_) => {}
    }
}
