// Answers the cases on standard input, on standard output, in the format of second/src/cases/mod.rs: for each of the page's functions,
// what the library's function answers.
#![tactic(auto)]

mod days;
mod encodings;
mod format;
mod replays;
mod states;

ghost use Rattle.std.specs.Prelude.{◌≡◌, length};

use format::Answer;
use numbers::get;

// Read and written by `io`, which stands on two calls of the system, where std's streams bring 37.
const STDIN_FILENO: i32 = 0;

const STDOUT_FILENO: i32 = 1;

// The bytes of the longest case, and of the longest answer.
const LONGEST_CASE: usize = 320_000;

const LONGEST_ANSWER: usize = 131_072;

// Puts the answer to a case of this kind; none for a kind that there isn't. The kinds are the format's numbers, told apart here alone: an enum
// of them would be made and matched in this one place.
fn answer(kind: u32, case: &[u8], to: &mut Answer) -> Option<()> {
    match kind {
        1 => encodings::answer_read(case, to),
        2 => encodings::answer_write(case, to),
        3 => replays::answer_run(case, to),
        4 => replays::answer_key(case, to),
        5 => days::answer_make(case, to),
        6 => days::answer_read(case, to),
        7 => days::answer_list(case, to),
        8 => encodings::answer_text(case, to),
        _ => None,
    }
}

// Reads the numbers of a case, which fill `case`, and writes its answer, of no bytes where there is none. Answers whether both went well.
fn answer_case(kind: u32, case: &mut [u8], out: &mut [u8]) -> bool {
    if io::read_full(STDIN_FILENO, case) < case.len() {
        return false;
    }
    let mut to = Answer::new(out);
    if answer(kind, case, &mut to).is_none() {
        return true;
    }
    match to.bytes() {
        Some(bytes) => io::write_all(STDOUT_FILENO, bytes),
        None => false,
    }
}

// Answers one case, and whether to go on: not where the input has ended, or the case has no room.
fn answer_next(case: &mut [u8], out: &mut [u8]) -> bool {
    let mut head = [0u8; 8];
    if io::read_full(STDIN_FILENO, &mut head) < 8 {
        return false;
    }
    let kind = get(&head, 0);
    match case.get_mut(..4 * (get(&head, 4) as usize)) {
        Some(case) => answer_case(kind, case, out),
        None => false,
    }
}

// A proved loop has to end, and nothing says that the input does. So the loop counts its turns, up to a number that no run reaches.
fn answer_all(case: &mut [u8], out: &mut [u8]) {
    for _turn in 0..u64::MAX {
        if !answer_next(case, out) {
            break;
        }
    }
}

// Room for so many bytes. The `ensures` gives only the length, which lending the array as a slice needs: where the array itself stands, the check
// counts through it, and runs out of stack. `make_day` and `replay_capture` have the same: a crate for one function would be no plainer.
fn bytes<const N: usize>() -> [u8; N]
    ensures { N ≡ length result }
{
    [0; N]
}

fn main() {
    let mut case = bytes::<LONGEST_CASE>();
    let mut out = bytes::<LONGEST_ANSWER>();
    answer_all(&mut case, &mut out);
}
