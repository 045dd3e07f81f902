// Writing a capture file.
ghost use Rattle.std.specs.Prelude.{◌≡◌};
ghost use Rattle.numbers.specs.Numbers.{Small};
ghost use Rattle.numbers.specs.Placed.{placed};
ghost use Rattle.captures.specs.Capture.{counts_of, words_in, captured, capture_of, state_fits, fits, in_order};
ghost use Rattle.captures.specs.Write.{wrote, write_of};

use crate::answer::{Head, Parts};
use crate::testing::{end_of, places_of};
use crate::{EDITION, MARK};
use numbers::put_words;
use packing::{DEPTH_WORD, HOT_WORDS};
use refusals::{Refusal, Rule, broken};
use wave::state::BLOCK_NUMBERS;

// The bound of a number of four bytes.
const BOUND: usize = 4294967296;

// Whether the words are none, or a state's.
#[tactic(auto, using(crate::proofs::Tested::state_short, crate::proofs::Tested::state_long))]
fn state_fits(state: &[u32]) -> bool
    ensures { result ≡ state_fits state.now }
{
    if state.len() < HOT_WORDS {
        return state.len() == 0;
    }
    state.len() == HOT_WORDS + BLOCK_NUMBERS * (state[DEPTH_WORD] as usize)
}

// Whether a file has these words: a count has four bytes, and the state's words are none or a state's.
#[tactic(auto, using(crate::proofs::Laid::fits_so))]
fn fits(words: Parts<&[u32]>) -> bool
    ensures { result ≡ fits (words_in words.entry) }
{
    (words.code.len() < BOUND)
        & (words.registers.len() < BOUND)
        & (words.device.len() < BOUND)
        & (words.local.len() < BOUND)
        & (words.state.len() < BOUND)
        & state_fits(words.state)
}

// The counts of words that a file has. No `try_from`: `fits` has tested each count with the state's words, and a second refusal here would
// never come.
fn counts(words: Parts<&[u32]>) -> Parts<u32>
    requires { Small (counts_of (words_in words)) }
    ensures { in_order result ≡ counts_of (words_in words.entry) }
{
    Parts {
        code: words.code.len() as u32,
        registers: words.registers.len() as u32,
        device: words.device.len() as u32,
        local: words.local.len() as u32,
        state: words.state.len() as u32,
    }
}

// Puts the file of these words, of which these are the counts, at the front of `file`, as far as it fits.
fn give_parts(head: Head, n: Parts<u32>, words: Parts<&[u32]>, file: &mut [u8])
    requires { in_order n ≡ counts_of (words_in words) }
    ensures { file.new ≡ placed file.old 0 (capture_of (captured head (words_in words.entry))) }
{
    let header = [
        MARK,
        EDITION,
        head.kernel,
        head.width,
        head.registers,
        head.lanes,
        head.budget,
        n.code,
        n.registers,
        n.device,
        n.local,
        n.state,
        0,
    ];
    let at = places_of(n);
    put_words(file, 0, &header);
    put_words(file, at.code, words.code);
    put_words(file, at.registers, words.registers);
    put_words(file, at.device, words.device);
    put_words(file, at.local, words.local);
    put_words(file, at.state, words.state);
}

// Writes the capture file of these words at the front of `file`, and answers its length; the rest of `file` stays as lent. Tests
// 14, where a count is 2^32 or more or the state's words are no state's, then 13. A refusal changes nothing.
pub fn write(head: Head, words: Parts<&[u32]>, file: &mut [u8]) -> Result<usize, Refusal>
    ensures { wrote result file.new ≡ write_of (captured head (words_in words.entry)) file.old }
{
    if !fits(words) {
        return Err(broken(Rule::NotOfLayout, 0));
    }
    let n = counts(words);
    let total = end_of(n);
    if file.len() < total {
        return Err(broken(Rule::Short, 0));
    }
    give_parts(head, n, words, file);
    Ok(total)
}
