// Cases and answers as numbers: four bytes each, low byte first. Places are counted in bytes.
// A case is lent with the place to read at: its first numbers are asked for in any order, and only its words stand one behind another.
use numbers::{get, get_words, put_bytes, put_words};
use refusals::Refusal;
use std::num::wrapping_add_usize;

// The byte that fills what is lent for output.
const LENT: u8 = 0xA5;

// The word of four such bytes.
pub(crate) const LENT_WORD: u32 = 0xA5A5_A5A5;

// The bytes of a refusal's number and place, and a length.
const LENGTH_BYTES: usize = 12;

// Number k of a case, counted from 0; 0 past its end.
pub(crate) fn number(case: &[u8], k: u32) -> u32 {
    get(case, 4 * (k as usize))
}

// The lowest four bytes of a number.
pub(crate) fn low(n: usize) -> u32 {
    (n % 0x1_0000_0000) as u32
}

// Fills words with the numbers of a case from place `at` on, and answers the place behind them.
pub(crate) fn take_words(case: &[u8], at: usize, words: &mut [u32]) -> usize {
    get_words(case, at, words);
    wrapping_add_usize(at, 4 * words.len())
}

// The answer to a case, which is put piece by piece into a lent buffer, as far as it fits, and the place behind what was put.
#[derive(Drop)]
pub(crate) struct Answer<'a> {
    out: &'a mut [u8],
    at: usize,
}

impl<'a> Answer<'a> {
    // An answer that is put at the start of a buffer.
    pub(crate) fn new(out: &'a mut [u8]) -> Answer<'a> {
        Answer { out, at: 0 }
    }

    // The bytes that were put; none where they didn't fit.
    pub(crate) fn bytes(&self) -> Option<&[u8]> {
        self.out.get(..self.at)
    }

    // Puts numbers.
    pub(crate) fn put(&mut self, words: &[u32]) {
        put_words(self.out, self.at, words);
        self.at = self.at.saturating_add(4 * words.len());
    }

    // Puts a refusal's number and place, and a length, of which what was answered has one, and the rest is 0.
    pub(crate) fn put_length(&mut self, answer: Result<usize, Refusal>) {
        match answer {
            Ok(length) => self.put(&[0, 0, low(length)]),
            Err(refusal) => self.put(&[refusal.number, low(refusal.place), 0]),
        }
    }

    // Puts zero bytes behind so many bytes that stand in the buffer already, up to a multiple of four.
    fn pad(&mut self, n: usize) {
        let end = self.at.saturating_add(n);
        put_bytes(self.out, end, &[0, 0, 0]);
        self.at = end.saturating_add(3) / 4 * 4;
    }

    // Puts what `write` answers, and the bytes of the room of A5 that it writes in, all of which are part of the answer. None where there is no
    // such room.
    pub(crate) fn put_written<F: FnOnce(&mut [u8]) -> Result<usize, Refusal>>(
        &mut self,
        room: usize,
        write: F,
    ) -> Option<()>
        requires { F.IsAlwaysCallable write }
    {
        let from = self.at.saturating_add(LENGTH_BYTES);
        let lent = self.out.get_mut(from..from.saturating_add(room))?;
        lent.fill(LENT);
        let wrote = write(lent);
        self.put_length(wrote);
        self.pad(room);
        Some(())
    }

    // Puts the length of the text that `write` writes in the rest of the buffer, and the text. None where there is no rest.
    pub(crate) fn put_text<F: FnOnce(&mut [u8]) -> usize>(&mut self, write: F) -> Option<()>
        requires { F.IsAlwaysCallable write }
    {
        let n = write(self.out.get_mut(self.at.saturating_add(4)..)?);
        self.put(&[low(n)]);
        self.pad(n);
        Some(())
    }
}
