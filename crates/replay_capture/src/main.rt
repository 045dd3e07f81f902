// Replays a capture: replay_capture CAPTURE [OUT] [KEY] [slices]. The report goes to standard output; OUT gets the end state as a capture,
// so that the run can be gone on with, and KEY a fault's body. A refused capture writes neither. With the word `slices` the state is kept
// in OUT on the way too. An error is one line on standard error.
#![tactic(auto)]

mod keeping;
mod memory;
mod opening;
mod replaying;
mod report;
mod rooms;
mod running;
mod saving;
mod telling;

use files::{PATH_ROOM, argument, fail};
use opening::{Asked, replay_file};
use std::env::FillError;
use std::rt::Env;

// Where the word that asks for slices stands among the arguments.
const SLICES: usize = 4;

// Whether there is an argument of this number: a buffer without room tells that from one that doesn't fit.
fn is_given(rt: &impl Env, i: usize) -> bool {
    match rt.arg(i, &mut []) {
        Err(FillError::NotPresent) => false,
        _ => true,
    }
}

// Whether argument 4, where there is one, asks for slices.
fn asks_slices(rt: &impl Env) -> bool {
    let mut word = [0u8; PATH_ROOM];
    match argument(rt, SLICES, &mut word) {
        Ok(Some(word)) => word == "slices",
        _ => false,
    }
}

// Whether the arguments are as many as the program takes, and the fourth is the word `slices`.
fn is_called_well(rt: &impl Env, sliced: bool) -> bool {
    is_given(rt, 1) && (!is_given(rt, SLICES) || (sliced && !is_given(rt, SLICES + 1)))
}

fn main(rt: HostRuntime) {
    let sliced = asks_slices(&rt);
    if !is_called_well(&rt, sliced) {
        let _ = eprintln!(rt; "expected: replay_capture CAPTURE [OUT] [KEY] [slices]");
        return;
    }
    let mut room = [0u8; PATH_ROOM];
    match argument(&rt, 1, &mut room) {
        Ok(Some(path)) => replay_file(&rt, Asked { path, sliced }),
        Ok(None) => {}
        Err(error) => fail(&rt, b"argument 1", &error),
    }
}
