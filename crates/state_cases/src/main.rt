// Asks of the states on the standard input whether they fit. A case is a line of hexadecimal numbers, with a space between two: the number of
// registers, the launched lanes n, how many words the code has, the code, the seven hot numbers, and numbers of the open blocks (0 where the
// line ends first). For each it writes a line, `fits` or `11`.
#![tactic(auto)]

ghost use Rattle.std.specs.Prelude.{◌≤◌, ◌+◌};

use blocks::item::{Code, Reading};
use fits::fits;
use lanes::said::{Block, DEEPEST};
use refusals::Rule;
use wave::state::{BLOCK_NUMBERS, Hot, NO_BLOCK, State};

// Read and written by `io`, which stands on two calls of the system, where std's streams bring 37.
const STDIN_FILENO: i32 = 0;

const STDOUT_FILENO: i32 = 1;

// The numbers of the longest case, and so many that a state's blocks can be read past them.
const LONGEST: usize = 320;

const SPACE: usize = 512;

// The code has fewer words than this.
const WORDS: u32 = 256;

// The registers, n and the length of the code.
const SETTINGS: usize = 3;

// The hot numbers.
const HOT: usize = 7;

// A line so far: its numbers, how many they are, and the number that is being read. Without a heap the numbers stand in an array, with their
// count beside it.
#[derive(Clone, Copy)]
struct Line {
    numbers: [u32; SPACE],
    count: usize,
    number: u32,
}

// What a hexadecimal digit stands for. `block_cases` has the same: a crate for one function would be no plainer.
fn digit(letter: u8) -> u32 {
    if letter <= b'9' {
        (letter % 16) as u32
    } else {
        (letter % 16) as u32 + 9
    }
}

// The line with one letter more, which is a digit or ends a number.
fn with_letter(line: Line, letter: u8) -> Line {
    let mut next = line;
    let number = line.number;
    let count = line.count;
    if b'0' <= letter {
        next.number = number % 0x1000_0000 * 16 + digit(letter) % 16;
        return next;
    }
    next.number = 0;
    if count < LONGEST {
        next.numbers[count] = number;
        next.count = count + 1;
    }
    next
}

// The hot numbers that begin at a place of the line.
fn hot_at(numbers: &[u32; SPACE], at: usize) -> Hot
    requires { at + 7 ≤ 320 }
{
    Hot {
        place: numbers[at],
        active: numbers[at + 1],
        halted: numbers[at + 2],
        p1: numbers[at + 3],
        p2: numbers[at + 4],
        p3: numbers[at + 5],
        depth: numbers[at + 6],
    }
}

// The block whose numbers begin at a place of the line.
fn block_at(numbers: &[u32; SPACE], at: usize) -> Block
    requires { at + 6 ≤ 512 }
{
    Block {
        part: numbers[at],
        opener: numbers[at + 1],
        entered: numbers[at + 2],
        aside: numbers[at + 3],
        again: numbers[at + 4],
        left: numbers[at + 5],
    }
}

// The open blocks, whose numbers begin at a place of the line.
fn blocks_at(numbers: &[u32; SPACE], at: usize) -> [Block; DEEPEST]
    requires { at ≤ 320 }
{
    let mut blocks = [NO_BLOCK; DEEPEST];
    for (k, block) in blocks.iter_mut().enumerate() {
        *block = block_at(numbers, at + BLOCK_NUMBERS * k);
    }
    blocks
}

// Whether the state of a case fits its code.
fn answer(numbers: [u32; SPACE]) -> bool {
    let n = numbers[1];
    let words = numbers[2] % WORDS;
    let start = SETTINGS + words as usize;
    let reading = Reading {
        registers: numbers[0],
    };
    let code = Code {
        words: &numbers[SETTINGS..start],
        reading,
    };
    let state = State {
        hot: hot_at(&numbers, start),
        blocks: blocks_at(&numbers, start + HOT),
    };
    fits(&code, n, &state)
}

// Writes the line of a case.
fn report(line: Line) {
    let numbers = line.numbers;
    if answer(numbers) {
        io::write_all(STDOUT_FILENO, b"fits\n");
    } else {
        io::print_decimal(STDOUT_FILENO, Rule::State.number() as u64);
        io::write_all(STDOUT_FILENO, b"\n");
    }
}

// No number yet.
fn empty_line() -> Line {
    Line {
        numbers: [0u32; SPACE],
        count: 0,
        number: 0,
    }
}

fn main() {
    let mut text = io::large_buffer();
    let given = io::read_full(STDIN_FILENO, &mut text);
    let mut line = empty_line();
    for letter in &text[..given] {
        line = with_letter(line, *letter);
        if *letter == b'\n' {
            report(line);
            line = empty_line();
        }
    }
}
