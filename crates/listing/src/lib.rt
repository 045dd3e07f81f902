// The listing's text of a day file.
//
// The file is tested once, and its records are then walked: the time is that of `records::firsts`.
#![tactic(auto)]

mod table;
mod writer;

ghost use Rattle.std.specs.Prelude.{◌++◌};
ghost use Rattle.numbers.specs.Placed.{Puts};
ghost use Rattle.listing.specs.Decimal.{field};
ghost use Rattle.listing.specs.Text.{newline, refused_text, text_of};
ghost use Rattle.listing.specs.Writing.{Wrote};

use records::accept;
use table::put_table;
use writer::Writer;

// The largest file that is listed.
pub const MOST_BYTES: usize = 65536;

// A buffer of this length holds every text.
pub const TEXT_ROOM: usize = 176000;

// Puts the line of a refused file.
fn put_refusal(writer: &mut Writer, number: u32)
    ensures { Wrote (refused_text ++ field number newline) writer.old writer.new }
{
    writer.put(b"refused ");
    writer.put_field(number as u64, b'\n');
}

// Puts the text for a file.
fn put_text(writer: &mut Writer, file: &[u8])
    ensures { Wrote (text_of file.now) writer.old writer.new }
{
    if MOST_BYTES < file.len() {
        writer.put(b"too long\n");
        return;
    }
    match accept(file) {
        Ok(day) => put_table(writer, &day),
        Err(refusal) => put_refusal(writer, refusal.number),
    }
}

// Puts the text for a file at the front of `out`, as far as it fits, and answers its length, at most 176,000: a line for each
// record of an accepted file and its total, one line for a refused file, and one for a file over 64 KiB.
pub fn list(file: &[u8], out: &mut [u8]) -> usize
    ensures { Puts out.old 0 (text_of file.now) result out.new }
{
    let mut writer = Writer { out, at: 0 };
    put_text(&mut writer, file);
    writer.at
}
