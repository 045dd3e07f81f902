// Reading a capture file.
ghost use Rattle.std.specs.Prelude.{◌≡◌};
ghost use Rattle.numbers.specs.Numbers.{numbers_at};
ghost use Rattle.numbers.specs.Placed.{placed};
ghost use Rattle.captures.specs.Capture.{lent_in, left_in};
ghost use Rattle.captures.specs.Read.{reading, read_of};

use crate::answer::{Capture, Parts, Unreadable};
use crate::testing::{counts_of, head_of, places_of, verdict_of};
use numbers::get_words;

// The words of a part, of which there are so many from `at` on, at the start of `out`, as far as they fit.
fn take_part(file: &[u8], at: usize, count: u32, out: &mut [u32])
    ensures { out.new ≡ placed out.old 0 (numbers_at file.now at count) }
{
    let count = out.len().min(count as usize);
    get_words(file, at, &mut out[..count]);
}

// Reads a capture file: its kernel number and settings, and how many words it has of each part; these stand at the start of each
// buffer, whose rest stays as lent. A file that is no capture, or has more words than there is room for, is answered by the first
// broken rule and its place, and changes nothing.
pub fn read(file: &[u8], lent: Parts<&mut [u32]>) -> Result<Capture, Unreadable>
    ensures { reading result (left_in lent.exit) ≡ read_of file.now (lent_in lent.entry) }
{
    let rooms = Parts {
        code: lent.code.len(),
        registers: lent.registers.len(),
        device: lent.device.len(),
        local: lent.local.len(),
        state: lent.state.len(),
    };
    verdict_of(file, rooms)?;
    let head = head_of(file);
    let counts = counts_of(file);
    let at = places_of(counts);
    take_part(file, at.code, counts.code, lent.code);
    take_part(file, at.registers, counts.registers, lent.registers);
    take_part(file, at.device, counts.device, lent.device);
    take_part(file, at.local, counts.local, lent.local);
    take_part(file, at.state, counts.state, lent.state);
    Ok(Capture { head, counts })
}
