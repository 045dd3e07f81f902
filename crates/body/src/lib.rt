// The layout of a key's body: which bytes are one, how long it is, and what it says.
#![tactic(auto)]

pub mod fields;

ghost use Rattle.std.specs.Prelude.{◌≡◌, true, ◌+◌, ◌*◌, ◌≤◌, length};
ghost use Rattle.ground.specs.Tests.{all_of};
ghost use Rattle.formats.specs.Places.{each};
ghost use Rattle.body.specs.Body.{Parts, set_bytes, parts_at};
ghost use Rattle.body.specs.Layout.{block_bytes, kind_lists, faults_fit, block_fits, is_body, body_answer};
ghost use Rattle.body.specs.Places.{block_at};
ghost use Rattle.body.specs.Spelling.{spells, may_precede};

use fields::{BLOCK_BYTES, FAULT_BYTES, HEAD_BYTES, count, depth, fault, place};
use lanes::Lanes;
use lanes::said::{BEFORE_ELSE, DEEPEST, Fault, LOOP};
use numbers::get;
use refusals::{Refusal, Rule, broken};

const LAST_PLACE: u32 = 65535;

const MOST_KINDS: usize = 3;

// The length of the longest body.
pub const LONGEST: usize = HEAD_BYTES + FAULT_BYTES * MOST_KINDS + BLOCK_BYTES * DEEPEST;

// The bytes of a body that is of the layout.
#[derive(Clone, Copy)]
pub struct Body<'a> {
    pub bytes: &'a [u8],
    pub ghost whole: { is_body bytes.now ≡ true },
}

// The kinds that a fault may have, a hexadecimal digit each, the last kind first.
const KIND_NUMBERS: [u32; 13] = [
    0x1, 0x2, 0x3, 0x4, 0x5, 0x21, 0x31, 0x6, 0x61, 0x62, 0x63, 0x621, 0x631,
];

// Whether a fault may have the kinds that this number spells.
fn in_table(kinds: u32) -> bool
    ensures { result ≡ spells kind_lists kinds }
{
    KIND_NUMBERS.contains(&kinds)
}

// Whether a fault kind has lanes, none of them among those `seen`, and is a digit.
fn may_precede(f: Fault, seen: Lanes) -> bool
    ensures { result ≡ may_precede f seen }
{
    let common = f.lanes & seen;
    (0 < f.kind) & (f.kind < 16) & (f.lanes != 0) & (common == 0)
}

// Whether the fault kinds of the body that `bytes` start with, and their lane sets, are of the layout.
fn faults_fit(bytes: &[u8]) -> bool
    ensures { result ≡ faults_fit kind_lists (parts_at bytes.now).faults }
{
    let many = count(bytes) as usize;
    if MOST_KINDS < many {
        return false;
    }
    let mut kinds: u32 = 0;
    let mut seen: Lanes = 0;
    for left in (0..many).rev() {
        let f = fault(bytes, left);
        if !may_precede(f, seen) {
            return false;
        }
        kinds = 16 * kinds + f.kind;
        seen = f.lanes | seen;
    }
    in_table(kinds)
}

// Whether the block at `p` is of the layout.
fn block_fits(bytes: &[u8], p: usize) -> bool
    requires { p + block_bytes set_bytes ≤ length bytes.now }
    ensures { result ≡ block_fits (block_at set_bytes bytes.now p) }
{
    let part = get(bytes, p);
    let opener = get(bytes, p + 4);
    let again = get(bytes, p + 16);
    (opener <= LAST_PLACE)
        & (BEFORE_ELSE <= part)
        & (part <= LOOP)
        & ((part == LOOP) | (again == 0))
}

// Whether the blocks from `p` on, `depth` of them, are of the layout.
fn blocks_fit(bytes: &[u8], p: usize, depth: usize) -> bool
    requires { p + block_bytes set_bytes * depth ≤ length bytes.now }
    ensures { result ≡ all_of block_fits (each (block_at set_bytes bytes.now) (block_bytes set_bytes) p depth) }
{
    (0..depth).all(|k| block_fits(bytes, p + BLOCK_BYTES * k))
}

// The length of the body that starts at `at`, 32 to 816; or refusal 14, at `at`, where none of the layout starts there.
pub fn body_length(bytes: &[u8], at: usize) -> Result<usize, Refusal>
    ensures { result ≡ body_answer bytes.now at }
{
    if bytes.len() < at {
        return Err(broken(Rule::NotOfLayout, at));
    }
    let body = &bytes[at..];
    let head = HEAD_BYTES + FAULT_BYTES * (count(body) as usize);
    let blocks = depth(body) as usize;
    let size = head + BLOCK_BYTES * blocks;
    let fits = faults_fit(body)
        & (place(body) <= LAST_PLACE)
        & (blocks <= DEEPEST)
        & (size <= body.len());
    if !fits {
        return Err(broken(Rule::NotOfLayout, at));
    }
    if !blocks_fit(body, head, blocks) {
        return Err(broken(Rule::NotOfLayout, at));
    }
    Ok(size)
}
