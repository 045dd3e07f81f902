// The digits of numbers.
ghost use Rattle.std.specs.Prelude.{◌≡◌, ◌≤◌, ◌<◌, length};
ghost use Rattle.texts.specs.Numerals.{digits, places, hex_from};

// The least number that is hexadecimal.
pub(crate) const HEX_FROM: u32 = 10_000_000;

// The digit of each number below 16.
pub(crate) const GLYPHS: &[u8; 16] = b"0123456789ABCDEF";

// How many decimal digits a number has.
pub(crate) fn places_of(n: u32) -> usize
    requires { n < hex_from }
    ensures value { result ≡ places 7 n }
    ensures few { result ≤ 8 }
{
    n.max(1).ilog10() as usize + 1
}

// Fills a buffer with the last digits of a number in a base, the most significant first. The base is a constant: to divide by one is a
// multiplication.
pub(crate) fn put_digits<const BASE: u32>(n: u32, out: &mut [u8])
    requires { (0 < BASE) × (BASE ≤ 16) }
    ensures { out.new ≡ digits BASE (length out.old) n }
{
    let mut left = n;
    // By index: over `iter_mut().rev()` the proof of what the buffer holds at each turn did not close.
    for i in (0..out.len()).rev() {
        out[i] = GLYPHS[(left % BASE) as usize];
        left /= BASE;
    }
}
