// The report of a replay, in plain lines, each beginning with its word.
use faulting::faults::{Faults, KINDS, lanes_of_kind};
use instructions::instr::Instr;
use lanes::said::Block;
use naming::{TEXT_ROOM, write_text};
use refusals::{Refusal, Rule};
use std::fmt;
use std::fmt::{Display, Formatter, Write};
use stepping::answers::{Outcome, Replayed};
use wave::state::{Hot, State, depth_of};
use words::reading::read_at;

// What is reported: what a replay answered of this code, and a fault's body, which is the key. Place, sets and depth are the state's; the
// instruction and the fault kinds stand behind the place.
#[derive(Clone, Copy)]
pub(crate) struct Report<'a, 'b> {
    pub(crate) answer: Replayed,
    pub(crate) code: &'a [u32],
    pub(crate) key: Option<&'b [u8]>,
}

// The outcome's line.
fn say_outcome<W: Write>(f: &mut Formatter<W>, outcome: Outcome) -> fmt::Result {
    match outcome {
        Outcome::Ended => writeln!(f, "outcome ended"),
        Outcome::OutOfBudget => writeln!(f, "outcome out of budget"),
        Outcome::Fault(_) => writeln!(f, "outcome fault"),
        Outcome::Refused(Refusal { number, place }) => {
            writeln!(f, "outcome refused {number} place {place}")
        }
    }
}

// The place of the instruction that is told of: the state's, or that of a refusal by a rule about an instruction that was read.
fn told_place(outcome: Outcome, h: Hot) -> Option<usize> {
    let Outcome::Refused(refusal) = outcome else {
        return Some(h.place as usize);
    };
    if (Rule::Register.number() <= refusal.number) & (refusal.number <= Rule::Unclosed.number()) {
        return Some(refusal.place);
    }
    None
}

// The line of an instruction's text.
fn say_text<W: Write>(f: &mut Formatter<W>, instr: Instr) -> fmt::Result {
    let mut room = [0u8; TEXT_ROOM];
    match write_text(instr, &mut room) {
        Ok(n) => match str::from_utf8(&room[..n]) {
            Ok(text) => writeln!(f, "instruction {text}"),
            Err(_) => Ok(()),
        },
        Err(_) => Ok(()),
    }
}

// The line of the instruction at a place of the code, where one stands there.
fn say_instruction<W: Write>(f: &mut Formatter<W>, code: &[u32], place: usize) -> fmt::Result {
    match read_at(code, place) {
        Ok(read) => say_text(f, read.instr),
        Err(_) => Ok(()),
    }
}

// The lines of the fault kinds that have lanes, in rising order.
fn say_kinds<W: Write>(f: &mut Formatter<W>, faults: Faults) -> fmt::Result {
    for kind in 1..=KINDS {
        let lanes = lanes_of_kind(kind, faults);
        if lanes != 0 {
            writeln!(f, "kind {kind} lanes {lanes:08X}")?;
        }
    }
    Ok(())
}

// The sets and the depth of a state.
fn say_sets<W: Write>(f: &mut Formatter<W>, h: Hot) -> fmt::Result {
    writeln!(f, "active {:08X}", h.active)?;
    writeln!(f, "halted {:08X}", h.halted)?;
    writeln!(f, "p1 {:08X}", h.p1)?;
    writeln!(f, "p2 {:08X}", h.p2)?;
    writeln!(f, "p3 {:08X}", h.p3)?;
    writeln!(f, "depth {}", h.depth)
}

// The lines of the open blocks, outermost first, at most as many as a state has room for: the part, the opener, and the lanes entered,
// aside, again and left.
fn say_blocks<W: Write>(f: &mut Formatter<W>, state: State) -> fmt::Result {
    let open = depth_of(state.hot.depth) as usize;
    for block in &state.blocks[..open] {
        let Block {
            part,
            opener,
            entered,
            aside,
            again,
            left,
        } = *block;
        writeln!(
            f,
            "block {part} {opener} {entered:08X} {aside:08X} {again:08X} {left:08X}"
        )?;
    }
    Ok(())
}

// The line of a fault's key, its bytes in two digits each.
fn say_key<W: Write>(f: &mut Formatter<W>, body: &[u8]) -> fmt::Result {
    write!(f, "key ")?;
    for byte in body {
        write!(f, "{byte:02X}")?;
    }
    writeln!(f)
}

impl Display for Report<'_, '_> {
    fn fmt<W: Write>(&self, f: &mut Formatter<W>) -> fmt::Result {
        let outcome = self.answer.outcome;
        let state = self.answer.state;
        let hot = state.hot;
        say_outcome(f, outcome)?;
        writeln!(f, "steps {}", self.answer.steps)?;
        writeln!(f, "place {}", hot.place)?;
        if let Some(place) = told_place(outcome, hot) {
            say_instruction(f, self.code, place)?;
        }
        if let Outcome::Fault(faults) = outcome {
            say_kinds(f, faults)?;
        }
        say_sets(f, hot)?;
        say_blocks(f, state)?;
        if let Some(body) = self.key {
            say_key(f, body)?;
        }
        Ok(())
    }
}
