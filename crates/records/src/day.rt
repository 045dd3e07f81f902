// An accepted day file, and its records.
ghost use Rattle.std.specs.Prelude.{◌≡◌, ◌≤◌, ◌<◌, [], get_or, length, MatchOption};
ghost use Rattle.dayfile.specs.Day.{page, count_of, bodies_of};
ghost use Rattle.records.specs.Read.{refusal_of, first_same, firsts_of, read_answer, counted, firsts_in};

use crate::reading::Record;
use body::Body;
use dayfile::rows::{record_length, record_place};
use numbers::{get, same_bytes};
use refusals::{Refusal, Rule, broken};

// The bytes of a day file that is accepted.
#[derive(Clone, Copy)]
pub struct DayFile<'a> {
    pub bytes: &'a [u8],
    pub ghost accepted: { refusal_of page bytes.now ≡ 0 },
}

impl<'a> DayFile<'a> {
    // How many records it has.
    pub fn count(&self) -> usize
        ensures { result ≡ count_of self.now.bytes.now }
    {
        get(self.bytes, 0) as usize
    }

    // The body of record k + 1.
    fn body_at(&self, k: usize) -> Body<'a>
        requires { k < count_of self.now.bytes.now }
        ensures { result.bytes.now ≡ get_or (bodies_of page self.now.bytes.now) k [] }
    {
        let row = k as u32;
        let place = record_place(self.bytes, row);
        let end = place + record_length(self.bytes, row);
        Body {
            bytes: &self.bytes[place..end],
        }
    }

    // The body of record k + 1, where it has so many records.
    pub fn body(&self, k: usize) -> Option<Body<'a>>
        ensures { MatchOption result (count_of self.now.bytes.now ≤ k) (λ b. b.bytes.now ≡ get_or (bodies_of page self.now.bytes.now) k []) }
    {
        if k < self.count() {
            return Some(self.body_at(k));
        }
        None
    }

    // Record i, counted from 1: its place, its length and the first record with equal bytes. Refuses an i that is 0 or over the
    // count by 16.
    pub fn record(&self, i: usize) -> Result<Record, Refusal>
        ensures { result ≡ read_answer page self.now.bytes.now i }
    {
        if i == 0 {
            return Err(broken(Rule::NoRecord, 0));
        }
        if self.count() < i {
            return Err(broken(Rule::NoRecord, 0));
        }
        let k = i - 1;
        let row = k as u32;
        Ok(Record {
            place: record_place(self.bytes, row),
            length: record_length(self.bytes, row),
            first: self.first_same(k),
        })
    }

    // The number, from 1, of the first record that has the bytes of record i + 1.
    fn first_same(&self, i: usize) -> usize
        requires { i < count_of self.now.bytes.now }
        ensures { result ≡ first_same (get_or (bodies_of page self.now.bytes.now) i []) (bodies_of page self.now.bytes.now) }
    {
        let body = self.body_at(i);
        for k in 0..i {
            let earlier = self.body_at(k);
            if same_bytes(earlier.bytes, body.bytes) {
                return k + 1;
            }
        }
        i + 1
    }

    // Puts for each of its records the first one with equal bytes.
    fn put_firsts(&self, out: &mut [u32])
        requires { length out.old ≡ count_of self.now.bytes.now }
        ensures { out.new ≡ firsts_of (bodies_of page self.now.bytes.now) }
    {
        for (k, first) in out.iter_mut().enumerate() {
            *first = self.first_same(k) as u32;
        }
    }

    // The count of its records; the front of `out` holds for each, in order, the number of the first record with equal bytes.
    // Refuses an output shorter than the count by 13, and a refusal changes nothing.
    pub fn firsts(&self, out: &mut [u32]) -> Result<usize, Refusal>
        ensures { counted result out.new ≡ firsts_in page self.now.bytes.now out.old }
    {
        let n = self.count();
        if out.len() < n {
            return Err(broken(Rule::Short, 0));
        }
        self.put_firsts(&mut out[..n]);
        Ok(n)
    }
}
