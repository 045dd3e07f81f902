// Answers cases about bodies and day files, which lie on standard input one after another: each is three numbers of four bytes,
// an operation, its argument and a count of bytes, and then the bytes; a count of FFFFFFFF stands for the bytes of the case before.
//   1 AT     the length of the body at AT
//   2 ROOM   a day file made in a buffer of ROOM bytes, all A5, and the sum of the buffer after
//   3 I      record I of a day file
//   4 -      the listing of a day file
// tests/day_files.py makes the cases, and answers them from the page.
#![tactic(auto)]

ghost use Rattle.std.specs.Prelude.{◌≡◌, length};

use numbers::get;
use records::Record;
use refusals::Refusal;

// Read and written by `io`, which stands on two calls of the system, where std's streams bring 37.
const STDIN_FILENO: i32 = 0;

const STDOUT_FILENO: i32 = 1;

// The bytes of a case's three numbers, and the count that stands for the bytes of the case before.
const HEAD_BYTES: usize = 12;

const SAME_BYTES: usize = 4294967295;

fn put_word(word: &[u8]) {
    io::write_all(STDOUT_FILENO, word);
}

fn put_number(n: usize) {
    io::write_all(STDOUT_FILENO, b" ");
    io::print_decimal(STDOUT_FILENO, n as u64);
}

fn end_line() {
    io::write_all(STDOUT_FILENO, b"\n");
}

fn put_refusal(refusal: Refusal) {
    put_word(b"refused");
    put_number(refusal.number as usize);
    put_number(refusal.place);
}

fn answer_body(bytes: &[u8], at: usize) {
    match body::body_length(bytes, at) {
        Ok(n) => {
            put_word(b"length");
            put_number(n);
        }
        Err(refusal) => put_refusal(refusal),
    }
    end_line();
}

fn answer_read(bytes: &[u8], i: usize) {
    match records::read(bytes, i) {
        Ok(
            Record {
                place,
                length,
                first,
            },
        ) => {
            put_word(b"record");
            put_number(place);
            put_number(length);
            put_number(first);
        }
        Err(refusal) => put_refusal(refusal),
    }
    end_line();
}

// The sum of a buffer's bytes, each weighed by its place, modulo 2^32.
fn sum_of(bytes: &[u8]) -> usize {
    let mut sum: usize = 0;
    for byte in bytes {
        sum = (31 * sum + *byte as usize) % 4294967296;
    }
    sum
}

fn answer_make(bytes: &[u8], out: &mut [u8]) {
    match dayfile::make(bytes, out) {
        Ok(n) => {
            put_word(b"made");
            put_number(n);
        }
        Err(refusal) => put_refusal(refusal),
    }
    put_number(sum_of(out));
    end_line();
}

// Bytes A5, to see what of a buffer is changed. The `ensures` gives only the length, which lending the array as a slice needs.
fn marked_buffer() -> [u8; 65536]
    ensures { 65536 ≡ length result }
{
    [165; 65536]
}

fn answer_make_in(bytes: &[u8], room: usize) {
    let mut buffer = marked_buffer();
    if room <= 65536 {
        answer_make(bytes, &mut buffer[..room]);
    }
}

fn answer_list(bytes: &[u8]) {
    let mut text = [0u8; listing::TEXT_ROOM];
    let n = listing::list(bytes, &mut text);
    if n <= listing::TEXT_ROOM {
        io::write_all(STDOUT_FILENO, &text[..n]);
    }
}

fn answer(operation: u32, argument: usize, bytes: &[u8]) {
    match operation {
        1 => answer_body(bytes, argument),
        2 => answer_make_in(bytes, argument),
        3 => answer_read(bytes, argument),
        4 => answer_list(bytes),
        _ => {}
    }
}

// Answers each case in turn. A case says how long it is, so no iterator goes from one to the next.
fn answer_all(cases: &[u8]) {
    let mut rest = cases;
    let mut bytes = &cases[..0];
    while HEAD_BYTES <= rest.len() {
        let operation = get(rest, 0);
        let argument = get(rest, 4) as usize;
        let count = get(rest, 8) as usize;
        rest = &rest[HEAD_BYTES..];
        if count != SAME_BYTES {
            if rest.len() < count {
                return;
            }
            bytes = &rest[..count];
            rest = &rest[count..];
        }
        answer(operation, argument, bytes);
    }
}

// Room for the cases. The `ensures` gives only the length, which lending the array as a slice needs.
fn cases_buffer() -> [u8; 600000]
    ensures { 600000 ≡ length result }
{
    [0; 600000]
}

fn main() {
    let mut cases = cases_buffer();
    let n = io::read_full(STDIN_FILENO, &mut cases);
    answer_all(&cases[..n]);
}
