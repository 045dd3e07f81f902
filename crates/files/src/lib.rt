// Input read whole and output written whole, for the programs. What fails is one line on standard error, which begins with the file's name.
#![tactic(auto)]

ghost use Rattle.files.specs.Within.{Within, IsTakenFrom, HoldsWhatWasRead};
ghost use Rattle.std.specs.Prelude.{IfOk, IsTrue};
ghost use Rattle.std.specs.Io.{ReadsAtMost};
ghost use Rattle.std.specs.Io.KnownBytes.{Appends};

use std::env::FillError;
use std::io::{Error, ErrorKind, Read, Result, Write};
use std::rt::Env;

// Room for any path: the system takes none that is longer.
pub const PATH_ROOM: usize = 4096;

// Says that something failed with the file of this name, and why. A name that is no text is said as its bytes.
pub fn fail(rt: &impl Eprint, name: &[u8], error: &Error) {
    let _ = match str::from_utf8(name) {
        Ok(text) => eprintln!(rt; "{text}: {error}"),
        Err(_) => eprintln!(rt; "{name:?}: {error}"),
    };
}

// The argument of this number, which `room` holds; none where there are fewer.
pub fn argument<'a>(rt: &impl Env, i: usize, room: &'a mut [u8]) -> Result<Option<&'a str>> {
    match rt.arg(i, room) {
        Ok(n) => match str::from_utf8(&room[..n]) {
            Ok(text) => Ok(Some(text)),
            Err(_) => Err(Error::from(ErrorKind::InvalidFilename)),
        },
        Err(FillError::NotPresent) => Ok(None),
        Err(FillError::TooLong) => Err(Error::from(ErrorKind::InvalidFilename)),
    }
}

// Reads up to the input's end, or until the room is full, and answers how many bytes.
fn read_full<R: Read>(input: &mut R, room: &mut [u8]) -> Result<usize>
    ensures within { ReadsAtMost result room.new }
    ensures taken { IfOk result (λ n. IsTakenFrom (R.remaining input.old) (R.remaining input.new) n room.new) }
{
    let mut size = 0;
    // A `while`, since the turns are as many as the system's answers, and read_to_end takes a heap.
    while size < room.len() {
        let more = input.read(&mut room[size..])?;
        if more == 0 {
            return Ok(size);
        }
        size += more;
    }
    Ok(size)
}

// Reads into `room` up to the input's end, or until the room is full, and answers how many bytes; none where reading failed, which is said
// on standard error.
pub fn read_whole<R: Read>(
    rt: &impl Eprint,
    name: &[u8],
    input: &mut R,
    room: &mut [u8],
) -> Option<usize>
    ensures within { Within result room.new }
    ensures taken { HoldsWhatWasRead result (R.remaining input.old) (R.remaining input.new) room.new }
{
    match read_full(input, room) {
        Ok(size) => Some(size),
        Err(error) => {
            fail(rt, name, &error);
            None
        }
    }
}

// Writes all bytes, and answers whether that went well. What failed has been said, so a `bool` is all that is left to answer.
pub fn write_whole<W: Write>(rt: &impl Eprint, name: &[u8], output: &mut W, bytes: &[u8]) -> bool
    ensures { IsTrue result → Appends (W.contents output.old) (W.contents output.new) bytes.now }
{
    match output.write_all(bytes) {
        Ok(()) => true,
        Err(error) => {
            fail(rt, name, &error);
            false
        }
    }
}
