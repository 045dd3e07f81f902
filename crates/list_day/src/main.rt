// Lists a day file: the one that the first argument names, or standard input where there is none. What can't be read or written is a line
// on standard error.
#![tactic(auto)]

use files::{PATH_ROOM, argument, fail, read_whole, write_whole};
use std::fs;
use std::io::{Read, writer};
use std::rt::Files;

// Lists a file.
fn list_of(rt: &(impl Print + Eprint), file: &[u8]) {
    let mut text = [0u8; listing::TEXT_ROOM];
    let k = listing::list(file, &mut text);
    if k <= listing::TEXT_ROOM {
        write_whole(rt, b"standard output", &mut writer(rt), &text[..k]);
    }
}

// Lists what can be read. One byte more than the largest file is read, so that a longer one shows.
fn list_from<R: Read>(rt: &(impl Print + Eprint), name: &str, input: &mut R) {
    let mut file = [0u8; listing::MOST_BYTES + 1];
    if let Some(n) = read_whole(rt, name.as_bytes(), input, &mut file) {
        list_of(rt, &file[..n]);
    }
}

// Lists the file of this name.
fn list_file(rt: &(impl Files + Print + Eprint), path: &str) {
    match fs::open(rt, path) {
        Ok(mut file) => list_from(rt, path, &mut file),
        Err(error) => fail(rt, path.as_bytes(), &error),
    }
}

fn main(rt: HostRuntime) {
    let mut room = [0u8; PATH_ROOM];
    match argument(&rt, 1, &mut room) {
        Ok(None) => list_from(&rt, "standard input", &mut rt.stdin()),
        Ok(Some(path)) => list_file(&rt, path),
        Err(error) => fail(&rt, b"argument 1", &error),
    }
}
