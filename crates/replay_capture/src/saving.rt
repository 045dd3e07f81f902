// Files written beside their place and renamed, so that an error leaves an earlier file as it was.
use files::{PATH_ROOM, fail};
use numbers::put_bytes;
use std::fs;
use std::fs::OpenFile;
use std::io::{Error, ErrorKind, Result, Write};
use std::rt::Files;

// How many bytes are added to a path for the file beside it.
const ADDED: usize = 4;

// Says what went wrong with the file, and takes away the one beside it.
fn give_up(rt: &(impl Files + Eprint), path: &str, beside: &str, error: &Error) {
    fail(rt, path.as_bytes(), error);
    let _ = fs::remove_file(rt, beside);
}

// Writes bytes to a file, and closes it. What the system would keep back goes to the disk first, since closing tells of no error; a pipe or a
// device, which has no disk, refuses that as invalid, and has the bytes.
fn write_out<F: Write + OpenFile + Drop>(mut file: F, bytes: &[u8]) -> Result<()> {
    file.write_all(bytes)?;
    match file.sync_all() {
        Ok(()) => Ok(()),
        Err(error) => {
            if matches!(error.kind(), ErrorKind::InvalidInput) {
                Ok(())
            } else {
                Err(error)
            }
        }
    }
}

// Writes bytes to a new file `beside`, and renames it to `path`.
fn write_beside(rt: &(impl Files + Eprint), path: &str, beside: &str, bytes: &[u8]) {
    let file = match fs::create(rt, beside) {
        Ok(file) => file,
        Err(error) => {
            fail(rt, path.as_bytes(), &error);
            return;
        }
    };
    if let Err(error) = write_out(file, bytes) {
        give_up(rt, path, beside, &error);
        return;
    }
    if let Err(error) = fs::rename(rt, beside, path) {
        give_up(rt, path, beside, &error);
    }
}

// The path with `.new` behind, which `room` holds; none where that is no path for its length.
fn name_beside<'a>(path: &str, room: &'a mut [u8; PATH_ROOM]) -> Option<&'a str> {
    let named = path.len();
    if PATH_ROOM - ADDED <= named {
        return None;
    }
    put_bytes(room, 0, path.as_bytes());
    put_bytes(room, named, b".new");
    str::from_utf8(&room[..named + ADDED]).ok()
}

// Writes a file of these bytes. The file beside it has the name with `.new` behind.
pub(crate) fn save(rt: &(impl Files + Eprint), path: &str, bytes: &[u8]) {
    let mut room = [0u8; PATH_ROOM];
    match name_beside(path, &mut room) {
        Some(beside) => write_beside(rt, path, beside, bytes),
        None => fail(
            rt,
            path.as_bytes(),
            &Error::from(ErrorKind::InvalidFilename),
        ),
    }
}
