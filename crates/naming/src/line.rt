// A line of text, of at most 48 bytes.
ghost use Rattle.std.specs.Prelude.{◌≡◌, ◌≤◌, ◌++◌, [], length};
ghost use Rattle.texts.specs.Text.{text_room};
ghost use Rattle.texts.specs.Numerals.{numeral};
ghost use Rattle.naming.specs.Line.{Adds};

use crate::TEXT_ROOM;
use crate::numerals::{GLYPHS, HEX_FROM, places_of, put_digits};
use std::marker::Model;

// The first `length` of `bytes` are the text. What is put past the room is left off.
#[derive(Drop)]
pub(crate) struct Line {
    bytes: [u8; TEXT_ROOM],
    length: usize,
}

impl Model for Line {
    ghost use Rattle.std.specs.Prelude.{ℕ, List, take, ◌≤◌};
    ghost use Rattle.texts.specs.Text.{text_room};

    ghost Value = { List ℕ };

    ghost view = { λ l. take l.length l.bytes };

    ghost invariant = { λ l. l.length ≤ text_room };
}

impl Line {
    // A line with no text.
    pub(crate) fn new() -> Line
        ensures { result ≡ [] }
    {
        Line {
            bytes: [0; TEXT_ROOM],
            length: 0,
        }
    }

    // Its text.
    pub(crate) fn as_bytes(&self) -> &[u8]
        ensures text { result.now ≡ self.now }
        ensures few { length result.now ≤ text_room }
    {
        &self.bytes[..self.length]
    }

    // Adds bytes, as far as they fit. One by one, with the length in a local variable: a piece of a text is a few bytes, so a call that copies
    // it costs more than it saves, and a length that is stored at each byte has to be read again at the next.
    fn put_bytes(&mut self, text: &[u8])
        ensures { Adds self.old text.now self.new }
    {
        let mut end = self.length;
        for byte in text {
            if end < TEXT_ROOM {
                self.bytes[end] = *byte;
                end += 1;
            }
        }
        self.length = end;
    }

    // Adds a text, as far as it fits.
    pub(crate) fn put(&mut self, text: &str)
        ensures { Adds self.old text.now self.new }
    {
        self.put_bytes(text.as_bytes());
    }

    // Adds a number, as far as it fits: decimal up to seven digits, else `0x` and eight hexadecimal digits.
    fn put_number(&mut self, n: u32)
        ensures { Adds self.old (numeral n) self.new }
    {
        // One digit, the most usual number, needs no buffer.
        if n < 10 {
            self.put_bytes(&[GLYPHS[n as usize]]);
            return;
        }
        let mut digits = [0; 8];
        if n < HEX_FROM {
            let decimal = &mut digits[..places_of(n)];
            put_digits::<10>(n, decimal);
            self.put_bytes(decimal);
        } else {
            put_digits::<16>(n, &mut digits);
            self.put("0x");
            self.put_bytes(&digits);
        }
    }

    // Adds a text and a number behind it, as far as they fit. Most of a line is such pairs, and one call is cheaper than two.
    pub(crate) fn put_numbered(&mut self, text: &str, n: u32)
        ensures { Adds self.old (text.now ++ numeral n) self.new }
    {
        self.put(text);
        self.put_number(n);
    }
}
