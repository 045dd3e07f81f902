// Runs the code's check on the cases of the standard input. A case is a line of words of eight hexadecimal digits, with a space between two:
// the number of registers, then the code. For each it writes a line, `fine` or the refusal's number and place.
#![tactic(auto)]

ghost use Rattle.std.specs.Prelude.{◌≤◌, length};

use blocks::item::{Code, Reading};

// Read and written by `io`, which stands on two calls of the system, where std's streams bring 37.
const STDIN_FILENO: i32 = 0;

const STDOUT_FILENO: i32 = 1;

// The digits of a word.
const DIGITS: usize = 8;

// The words of the longest case.
const LONGEST: usize = 128;

// What a hexadecimal digit stands for. `state_cases` has the same: a crate for one function would be no plainer.
fn digit(letter: u8) -> u32 {
    if letter <= b'9' {
        (letter % 16) as u32
    } else {
        (letter % 16) as u32 + 9
    }
}

// The word of these digits.
fn word_of(digits: &[u8]) -> u32 {
    let mut word: u32 = 0;
    for letter in digits {
        word = word % 0x1000_0000 * 16 + digit(*letter) % 16;
    }
    word
}

// Writes the line of a case's words, of which the first is the number of registers.
fn report(case: &[u32]) {
    let Some((registers, code)) = case.split_first() else {
        return;
    };
    let code = Code {
        words: code,
        reading: Reading {
            registers: *registers,
        },
    };
    match code.check() {
        Ok(()) => {
            io::write_all(STDOUT_FILENO, b"fine");
        }
        Err(refusal) => {
            io::print_decimal(STDOUT_FILENO, refusal.number as u64);
            io::write_all(STDOUT_FILENO, b" ");
            io::print_decimal(STDOUT_FILENO, refusal.place as u64);
        }
    }
    io::write_all(STDOUT_FILENO, b"\n");
}

// Where a line ends, writes the case's line. Answers how many words the case has from here on.
fn case_end(mark: u8, case: &[u32]) -> usize
    ensures { result ≤ length case.now }
{
    if mark == b'\n' {
        report(case);
        return 0;
    }
    case.len()
}

fn main() {
    let mut text = io::large_buffer();
    let given = io::read_full(STDIN_FILENO, &mut text);
    // Without a heap the words of a case stand in an array, with their count beside it.
    let mut words = [0u32; LONGEST];
    let mut count: usize = 0;
    for piece in text[..given].chunks_exact(DIGITS + 1) {
        if LONGEST <= count {
            break;
        }
        if let Some((mark, digits)) = piece.split_last() {
            words[count] = word_of(digits);
            count = case_end(*mark, &words[..count + 1]);
        }
    }
}
