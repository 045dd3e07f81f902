// Makes a day file from bodies that lie one after another in the file that the first argument names, or on standard input where
// there is none. The day file goes to standard output; a refusal's number and place, and what can't be read or written, go to standard
// error.
#![tactic(auto)]

ghost use Rattle.std.specs.Prelude.{◌≡◌, length};

use dayfile::{LONGEST_FILE, MOST_BYTES};
use files::{PATH_ROOM, argument, fail, read_whole, write_whole};
use refusals::Refusal;
use std::fs;
use std::io::{Read, writer};
use std::rt::Files;

// One byte more than 1,024 of the longest bodies have. So bytes that are not read change no answer: a 1,025th body is refused before it
// is looked at.
const BODIES_ROOM: usize = MOST_BYTES + 1;

// Says which rule the bodies break, and where.
fn refuse(rt: &impl Eprint, refusal: Refusal) {
    let Refusal { number, place } = refusal;
    let _ = eprintln!(rt; "refused {number} at {place}");
}

// Room for so many bytes. The `ensures` gives only the length, which lending the array as a slice needs: where the array itself stands, the check
// counts through it, and runs out of stack. `agree` and `replay_capture` have the same: a crate for one function would be no plainer.
fn bytes<const N: usize>() -> [u8; N]
    ensures { N ≡ length result }
{
    [0; N]
}

// Makes the file of these bodies, and writes it.
fn make_of(rt: &(impl Print + Eprint), bodies: &[u8]) {
    let mut file = bytes::<LONGEST_FILE>();
    match dayfile::make(bodies, &mut file) {
        Ok(k) => {
            if k <= LONGEST_FILE {
                write_whole(rt, b"standard output", &mut writer(rt), &file[..k]);
            }
        }
        Err(refusal) => refuse(rt, refusal),
    }
}

// Makes the file of what can be read.
fn make_from<R: Read>(rt: &(impl Print + Eprint), name: &str, input: &mut R) {
    let mut bodies = bytes::<BODIES_ROOM>();
    if let Some(n) = read_whole(rt, name.as_bytes(), input, &mut bodies) {
        make_of(rt, &bodies[..n]);
    }
}

// Makes the file of the bodies in the file of this name.
fn make_file(rt: &(impl Files + Print + Eprint), path: &str) {
    match fs::open(rt, path) {
        Ok(mut file) => make_from(rt, path, &mut file),
        Err(error) => fail(rt, path.as_bytes(), &error),
    }
}

fn main(rt: HostRuntime) {
    let mut room = [0u8; PATH_ROOM];
    match argument(&rt, 1, &mut room) {
        Ok(None) => make_from(&rt, "standard input", &mut rt.stdin()),
        Ok(Some(path)) => make_file(&rt, path),
        Err(error) => fail(&rt, b"argument 1", &error),
    }
}
