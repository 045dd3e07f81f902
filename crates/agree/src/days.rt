// Cases about day files: making one, reading a record of one, listing one. Each puts its answer; none where the case's bytes are not all there
// or the answer has no room. The bytes begin behind the case's numbers: two of them, or one to list.
use crate::format::{Answer, low, number};
use records::Record;

// The day file of a case's bodies. The bytes of the room that it is made in are part of the answer.
pub(crate) fn answer_make(case: &[u8], to: &mut Answer) -> Option<()> {
    let bodies = case.get(8..8 + number(case, 0) as usize)?;
    to.put_written(number(case, 1) as usize, |room| dayfile::make(bodies, room))
}

// Puts the count of a file's records.
fn put_count(to: &mut Answer, file: &[u8]) {
    let mut firsts = [0u32; dayfile::MOST_RECORDS];
    to.put_length(records::firsts(file, &mut firsts));
}

// Puts what is said of record i.
fn put_record(to: &mut Answer, file: &[u8], i: usize) {
    match records::read(file, i) {
        Ok(
            Record {
                place,
                length,
                first,
            },
        ) => to.put(&[0, 0, low(place), low(length), low(first)]),
        Err(refusal) => to.put(&[refusal.number, low(refusal.place), 0, 0, 0]),
    }
}

// The count of a file's records, and one of them.
pub(crate) fn answer_read(case: &[u8], to: &mut Answer) -> Option<()> {
    let file = case.get(8..8 + number(case, 1) as usize)?;
    put_count(to, file);
    put_record(to, file, number(case, 0) as usize);
    Some(())
}

// The listing's text of a file.
pub(crate) fn answer_list(case: &[u8], to: &mut Answer) -> Option<()> {
    let file = case.get(4..4 + number(case, 0) as usize)?;
    to.put_text(|room| listing::list(file, room))
}
