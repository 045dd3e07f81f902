// What is kept of a replay: the end state as a capture, and a fault's body, each under the name that an argument gives.
use crate::memory::Memory;
use crate::saving::save;
use captures::answer::Head;
use files::{PATH_ROOM, argument};
use packing::{word_count, words_of};
use std::rt::{Env, Files};
use stepping::answers::{Outcome, Replayed};

// Where the names of the files to write stand among the arguments.
const OUT: usize = 2;

pub(crate) const KEY: usize = 3;

// Writes a file of these bytes under the name that argument i gives, where there is one.
pub(crate) fn save_as(rt: &(impl Env + Files + Eprint), i: usize, bytes: &[u8]) {
    let mut room = [0u8; PATH_ROOM];
    match argument(rt, i, &mut room) {
        Ok(Some(path)) => save(rt, path, bytes),
        Ok(None) => {}
        Err(error) => {
            let _ = eprintln!(rt; "argument {i}: {error}");
        }
    }
}

// Writes the end state as a capture, with the same settings and code, made in `file`. A refused run writes none.
pub(crate) fn keep_state(
    rt: &(impl Env + Files + Eprint),
    head: Head,
    answer: Replayed,
    code: &[u32],
    memory: &Memory,
    file: &mut [u8],
) {
    if matches!(answer.outcome, Outcome::Refused(_)) {
        return;
    }
    let words = words_of(answer.state);
    let n = word_count(answer.state.hot.depth);
    if let Ok(size) = captures::write(head, memory.parts(code, &words[..n]), file) {
        if size <= file.len() {
            save_as(rt, OUT, &file[..size]);
        }
    }
}
