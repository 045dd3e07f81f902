// What is told of a file that is no capture, in one line on standard error.
use crate::rooms::{CODE_ROOM, LARGE_DEVICE, LARGE_LOCAL, REGISTER_ROOM, STATE_ROOM};
use captures::answer::{Part, Rule, Unreadable};
use std::fmt::Display;

// Says that a file is no capture, what was expected, and the byte where it isn't.
fn say<D: Display + Drop>(rt: &impl Eprint, path: &str, expected: D, place: usize) {
    let _ = eprintln!(rt; "{path}: no capture: expected {expected} at byte {place}");
}

// Says it of a count: the largest, and what is counted.
fn say_most(rt: &impl Eprint, path: &str, most: usize, counted: &str, place: usize) {
    say(rt, path, format_args!("at most {most} {counted}"), place);
}

// Says what there is room for, of a part's words, whose count stands at this byte.
fn say_room(rt: &impl Eprint, path: &str, part: Part, place: usize) {
    match part {
        Part::Code => say_most(rt, path, CODE_ROOM, "code words", place),
        Part::Registers => say_most(rt, path, REGISTER_ROOM, "register words", place),
        Part::Device => say_most(rt, path, LARGE_DEVICE, "device words", place),
        Part::Local => say_most(rt, path, LARGE_LOCAL, "local words", place),
        Part::State => say_most(rt, path, STATE_ROOM, "state words", place),
    }
}

// Says what a file breaks that is no capture, and where.
pub(crate) fn say_unreadable(rt: &impl Eprint, path: &str, broken: Unreadable) {
    let place = broken.place;
    match broken.rule {
        Rule::Mark => say(rt, path, "the bytes 57 43 41 50", place),
        Rule::Edition => say(rt, path, "edition 1", place),
        Rule::Header => say(rt, path, "a header of 52 bytes", place),
        Rule::Room(part) => say_room(rt, path, part, place),
        Rule::StateCount => say(rt, path, "a count of 0 or 7 + 6 x depth state words", place),
        Rule::SixthCount => say(rt, path, "a sixth count of 0", place),
        Rule::Length => say(rt, path, "the end of the file after the words", place),
        Rule::Depth => say(rt, path, "the depth that the state's count gives", place),
    }
}
