// Which files are accepted: those that some list of bodies gives.
ghost use Rattle.std.specs.Prelude.{◌≡◌, ◌≤◌, ◌≢◌, length, MatchResult};
ghost use Rattle.dayfile.specs.Day.{page, table_end};
ghost use Rattle.records.specs.Read.{refusal_of, of_file};
ghost use Rattle.records.specs.Steps.{walk};

use crate::day::DayFile;
use body::body_length;
use dayfile::MOST_RECORDS;
use dayfile::rows::{COUNT_BYTES, record_length, record_place, table_end};
use numbers::get;
use refusals::{Refusal, Rule, broken};

// Whether n rows of the table name bodies that touch, from the table's end to the file's end.
fn holds(file: &[u8], n: u32) -> bool
    requires { table_end n ≤ length file.now }
    ensures { result ≡ walk page n 0 (table_end n) file.now }
{
    let mut p = table_end(n);
    for k in 0..n {
        if record_place(file, k) != p {
            return false;
        }
        let Ok(size) = body_length(file, p) else {
            return false;
        };
        if record_length(file, k) != size {
            return false;
        }
        p += size;
    }
    p == file.len()
}

// The file that `bytes` are, if it is accepted; or its refusal, 15 or 14.
pub fn accept(bytes: &[u8]) -> Result<DayFile, Refusal>
    ensures { MatchResult result (λ day. day.bytes.now ≡ bytes.now) (λ x. (refusal_of page bytes.now ≢ 0) × (x ≡ of_file (refusal_of page bytes.now))) }
{
    if bytes.len() < COUNT_BYTES {
        return Err(broken(Rule::NotOfLayout, 0));
    }
    let n = get(bytes, 0);
    if MOST_RECORDS < n as usize {
        return Err(broken(Rule::TooMany, 0));
    }
    if bytes.len() < table_end(n) {
        return Err(broken(Rule::NotOfLayout, 0));
    }
    if !holds(bytes, n) {
        return Err(broken(Rule::NotOfLayout, 0));
    }
    Ok(DayFile { bytes })
}
