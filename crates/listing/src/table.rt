// The listing of an accepted file: a head, a line for each record, and the total.
ghost use Rattle.std.specs.Prelude.{◌≡◌, map};
ghost use Rattle.lanes.specs.declared.said.Fault.{Fault};
ghost use Rattle.body.specs.Body.{Parts, parts_at};
ghost use Rattle.dayfile.specs.Day.{page, bodies_of};
ghost use Rattle.records.specs.Read.{firsts_of};
ghost use Rattle.listing.specs.Text.{kinds_text, line, lines, distinct, total_line, table_text};
ghost use Rattle.listing.specs.Writing.{Wrote};

use crate::writer::Writer;
use body::Body;
use body::fields::{count, depth, fault, kernel, place};
use dayfile::MOST_RECORDS;
use records::DayFile;

// Puts the kinds of a body's fault, a comma between two.
fn put_kinds(writer: &mut Writer, body: &Body)
    ensures { Wrote (kinds_text (map (λ (f : Fault). f.kind) (parts_at body.now.bytes.now).faults)) writer.old writer.new }
{
    let last = (count(body.bytes) - 1) as usize;
    for k in 0..last {
        writer.put_field(fault(body.bytes, k).kind as u64, b',');
    }
    writer.put_field(fault(body.bytes, last).kind as u64, b' ');
}

// Puts the line of record i, whose body is given.
fn put_line(writer: &mut Writer, i: usize, first: u32, body: &Body)
    ensures { Wrote (line i first (parts_at body.now.bytes.now)) writer.old writer.new }
{
    writer.put_field(i as u64, b' ');
    writer.put_field(first as u64, b' ');
    writer.put_field(kernel(body.bytes) as u64, b' ');
    writer.put_field(place(body.bytes) as u64, b' ');
    put_kinds(writer, body);
    writer.put_field(depth(body.bytes) as u64, b'\n');
}

// Puts the lines of a file's records.
fn put_lines(writer: &mut Writer, day: &DayFile, firsts: &[u32])
    requires { firsts.now ≡ firsts_of (bodies_of page day.now.bytes.now) }
    ensures { Wrote (lines 1 firsts.now (bodies_of page day.now.bytes.now)) writer.old writer.new }
{
    for (k, first) in firsts.iter().enumerate() {
        let Some(body) = day.body(k) else {
            return;
        };
        put_line(writer, k + 1, *first, &body);
    }
}

// How many records are the first with their bytes.
fn count_distinct(firsts: &[u32]) -> usize
    ensures { result ≡ distinct 1 firsts.now }
{
    let mut d: usize = 0;
    for (k, first) in firsts.iter().enumerate() {
        if *first as usize == k + 1 {
            d += 1;
        }
    }
    d
}

// Puts the last line: the count of the records, and of those that are the first with their bytes.
fn put_total(writer: &mut Writer, total: u64, first_ones: u64)
    ensures { Wrote (total_line total first_ones) writer.old writer.new }
{
    writer.put(b"total ");
    writer.put_field(total, b' ');
    writer.put(b"distinct ");
    writer.put_field(first_ones, b'\n');
}

// Puts the listing of a file's records.
pub(crate) fn put_table(writer: &mut Writer, day: &DayFile)
    ensures { Wrote (table_text (firsts_of (bodies_of page day.now.bytes.now)) (bodies_of page day.now.bytes.now)) writer.old writer.new }
{
    let mut room = [0u32; MOST_RECORDS];
    let Ok(n) = day.firsts(&mut room) else {
        return;
    };
    let firsts = &room[..n];
    writer.put(b"record first kernel place kinds depth\n");
    put_lines(writer, day, firsts);
    put_total(writer, firsts.len() as u64, count_distinct(firsts) as u64);
}
