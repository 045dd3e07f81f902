// From a path to the words of a capture.
ghost use Rattle.std.specs.Prelude.{◌≤◌, length};

use crate::memory::Memory;
use crate::replaying::replay_words;
use crate::rooms::{
    CODE_ROOM, LARGE_DEVICE, LARGE_FILE, LARGE_LOCAL, REGISTER_ROOM, SMALL_DEVICE, SMALL_FILE,
    SMALL_LOCAL, STATE_ROOM, bytes, words,
};
use crate::telling::say_unreadable;
use captures::answer::{Capture, Part, Parts};
use files::{fail, read_whole};
use numbers::{get, put_bytes};
use std::fs;
use std::io::Read;

// What is asked for: the replay of the file of this name, in one call or in slices.
#[derive(Clone, Copy)]
pub(crate) struct Asked<'a> {
    pub(crate) path: &'a str,
    pub(crate) sliced: bool,
}

// How many of a buffer's words a capture has, at most all.
fn count(words: u32, room: &[u32]) -> usize
    ensures { result ≤ length room.now }
{
    room.len().min(words as usize)
}

// Replays a capture that was read, the words that it has of each buffer's.
fn replay_read(
    rt: &HostRuntime,
    sliced: bool,
    read: Capture,
    lent: Parts<&mut [u32]>,
    file: &mut [u8],
) {
    let Parts {
        code,
        registers,
        device,
        local,
        state,
    } = lent;
    let n = read.counts;
    let code_count = count(n.code, code);
    let state_count = count(n.state, state);
    let regs_count = count(n.registers, registers);
    let device_count = count(n.device, device);
    let local_count = count(n.local, local);
    let mut memory = Memory {
        regs: &mut registers[..regs_count],
        device: &mut device[..device_count],
        local: &mut local[..local_count],
    };
    let code = &code[..code_count];
    let state = &state[..state_count];
    replay_words(rt, read.head, sliced, code, &mut memory, state, file);
}

// Replays the capture in the first bytes of `file`, which is room for what is written after, with this room for its words; or says what
// it breaks that is none.
fn replay_in(
    rt: &HostRuntime,
    asked: Asked,
    size: usize,
    lent: Parts<&mut [u32]>,
    file: &mut [u8],
) {
    if file.len() < size {
        return;
    }
    let Parts {
        code,
        registers,
        device,
        local,
        state,
    } = lent;
    let room = Parts {
        code: &mut code[..],
        registers: &mut registers[..],
        device: &mut device[..],
        local: &mut local[..],
        state: &mut state[..],
    };
    match captures::read(&file[..size], room) {
        Ok(read) => {
            let lent = Parts {
                code: &mut code[..],
                registers: &mut registers[..],
                device: &mut device[..],
                local: &mut local[..],
                state: &mut state[..],
            };
            replay_read(rt, asked.sliced, read, lent, file);
        }
        Err(broken) => say_unreadable(rt, asked.path, broken),
    }
}

// The same with room for so many words of each memory, at most the large rooms' (an array has fewer bytes than 2^63). All five rooms stand
// here: were the smaller ones made in `replay_in`, this would be small enough for the compiler to make it part of its caller, and the large
// rooms would be on the stack of every run.
fn replay_within<const DEVICE: usize, const LOCAL: usize>(
    rt: &HostRuntime,
    asked: Asked,
    size: usize,
    file: &mut [u8],
)
    requires device { DEVICE ≤ 16777216 }
    requires local { LOCAL ≤ 4194304 }
{
    let mut code = [0u32; CODE_ROOM];
    let mut registers = [0u32; REGISTER_ROOM];
    let mut device = words::<DEVICE>();
    let mut local = words::<LOCAL>();
    let mut state = [0u32; STATE_ROOM];
    let lent = Parts {
        code: &mut code[..],
        registers: &mut registers[..],
        device: &mut device[..],
        local: &mut local[..],
        state: &mut state[..],
    };
    replay_in(rt, asked, size, lent, file);
}

// Reads a capture on into a larger room, behind its first bytes, which were read before. Answers how many bytes it has so far.
fn read_on<R: Read>(
    rt: &HostRuntime,
    path: &str,
    input: &mut R,
    before: &[u8],
    file: &mut [u8],
) -> Option<usize> {
    let size = before.len();
    if file.len() < size {
        return None;
    }
    put_bytes(file, 0, before);
    let more = read_whole(rt, path.as_bytes(), input, &mut file[size..])?;
    Some(size + more)
}

// Replays a capture in the large rooms, of which the first bytes were read into a small one.
fn replay_on<R: Read>(rt: &HostRuntime, asked: Asked, input: &mut R, before: &[u8]) {
    let mut file = bytes::<LARGE_FILE>();
    if let Some(all) = read_on(rt, asked.path, input, before, &mut file) {
        replay_within::<LARGE_DEVICE, LARGE_LOCAL>(rt, asked, all, &mut file);
    }
}

// Replays the capture that can be read, in the small rooms where they hold both its memories. The large ones are called for in two places,
// so that they stay a function of their own.
fn replay_open<R: Read>(rt: &HostRuntime, asked: Asked, input: &mut R) {
    let mut file = bytes::<SMALL_FILE>();
    if let Some(size) = read_whole(rt, asked.path.as_bytes(), input, &mut file) {
        if SMALL_DEVICE < get(&file, Part::Device.count_place()) as usize {
            replay_on(rt, asked, input, &file[..size]);
        } else if SMALL_LOCAL < get(&file, Part::Local.count_place()) as usize {
            replay_on(rt, asked, input, &file[..size]);
        } else {
            replay_within::<SMALL_DEVICE, SMALL_LOCAL>(rt, asked, size, &mut file);
        }
    }
}

// Replays the capture in the file that is asked for.
pub(crate) fn replay_file(rt: &HostRuntime, asked: Asked) {
    match fs::open(rt, asked.path) {
        Ok(mut file) => replay_open(rt, asked, &mut file),
        Err(error) => fail(rt, asked.path.as_bytes(), &error),
    }
}
