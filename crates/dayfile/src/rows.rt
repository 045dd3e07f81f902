// The table of contents: behind the count a row for each record, its place and then its length.
ghost use Rattle.std.specs.Prelude.{◌≡◌, ◌++◌};
ghost use Rattle.numbers.specs.Numbers.{bytes_of};
ghost use Rattle.numbers.specs.Placed.{placed};
ghost use Rattle.dayfile.specs.Day.{table_end, place_of, length_of};

use numbers::{get, put};

pub const COUNT_BYTES: usize = 4;

pub(crate) const ROW_BYTES: usize = 8;

// From a row's place to its length.
const PLACE_BYTES: usize = 4;

// Where a table of n rows ends, and row n would stand.
pub fn table_end(n: u32) -> usize
    ensures { result ≡ table_end n }
{
    COUNT_BYTES + ROW_BYTES * (n as usize)
}

// Where the table says that record k + 1 stands.
pub fn record_place(file: &[u8], k: u32) -> usize
    ensures { result ≡ place_of file.now k }
{
    get(file, table_end(k)) as usize
}

// How long the table says that record k + 1 is.
pub fn record_length(file: &[u8], k: u32) -> usize
    ensures { result ≡ length_of file.now k }
{
    get(file, table_end(k) + PLACE_BYTES) as usize
}

// Puts the row of record k + 1.
pub(crate) fn put_row(file: &mut [u8], k: u32, place: u32, length: u32)
    ensures { file.new ≡ placed file.old (table_end k) (bytes_of place ++ bytes_of length) }
{
    let row = table_end(k);
    put(file, row, place);
    put(file, row + PLACE_BYTES, length);
}
