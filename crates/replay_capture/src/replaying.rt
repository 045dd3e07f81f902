// A capture's words replayed, and what is told and kept of it.
use crate::keeping::{KEY, keep_state, save_as};
use crate::memory::Memory;
use crate::report::Report;
use crate::running::run;
use body::LONGEST;
use captures::answer::Head;
use files::fail;
use key::write_key;
use packing::state_of;
use std::io::{Cursor, Error, ErrorKind, Result, Write, writer};
use stepping::answers::Replayed;
use stepping::settings::Settings;

// More than the bytes of the longest report.
const REPORT_ROOM: usize = 8192;

// Writes a report to standard output. It goes in one call where the system takes it so, and lines of two programs don't mix.
fn print(rt: &impl Print, report: Report) -> Result<()> {
    let mut room = [0u8; REPORT_ROOM];
    let mut text = Cursor::new(&mut room[..]);
    write!(text, "{report}")?;
    let n = text.position() as usize;
    match room.get(..n) {
        Some(text) => writer(rt).write_all(text),
        None => Err(Error::from(ErrorKind::WriteZero)),
    }
}

// Tells of a replay, and of what can't be written.
fn tell_report(rt: &(impl Print + Eprint), report: Report) {
    if let Err(error) = print(rt, report) {
        fail(rt, b"standard output", &error);
    }
}

// Tells of what a replay answered; only a fault has a key, and its body goes to its file first.
fn tell(rt: &HostRuntime, kernel: u32, answer: Replayed, code: &[u32]) {
    let mut body = [0u8; LONGEST];
    let written = write_key(kernel, answer, &mut body);
    match written {
        Ok(n) => {
            if n <= LONGEST {
                save_as(rt, KEY, &body[..n]);
                let key = Some(&body[..n]);
                tell_report(rt, Report { answer, code, key });
            }
        }
        Err(_) => {
            let key = None;
            tell_report(rt, Report { answer, code, key });
        }
    }
}

// The settings of a capture's run.
fn settings_of(head: Head) -> Settings {
    Settings {
        width: head.width,
        registers: head.registers,
        lanes: head.lanes,
        budget: head.budget,
    }
}

// Replays a capture's words: what is kept of it, then the report, so that a reader who stops reading loses no file. Words of no state
// are a launch's.
pub(crate) fn replay_words(
    rt: &HostRuntime,
    head: Head,
    sliced: bool,
    code: &[u32],
    memory: &mut Memory,
    state: &[u32],
    file: &mut [u8],
) {
    let from = if state.is_empty() {
        None
    } else {
        Some(state_of(state))
    };
    let answer = run(
        rt,
        settings_of(head),
        from,
        head,
        sliced,
        code,
        memory,
        file,
    );
    keep_state(rt, head, answer, code, memory, file);
    tell(rt, head.kernel, answer, code);
}
