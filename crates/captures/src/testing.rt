// Whether bytes are a capture file: what their header says, and the first broken rule.
ghost use Rattle.std.specs.Prelude.{◌≡◌, ◌+◌, ◌*◌, ◌≤◌, ◌∷◌, []};
ghost use Rattle.numbers.specs.Numbers.{bound};
ghost use Rattle.captures.specs.Capture.{part_count, header_bytes, head_in, counts_in, in_order};
ghost use Rattle.captures.specs.Read.{settings_at, counts_at, place_of, places_in, next, depth_of};
ghost use Rattle.captures.specs.Read.{fine, part_order, test_head, test_rooms, test_state, verdict_of};

use crate::answer::{Head, Part, Parts, Rule, Unreadable};
use crate::{
    COUNTS_PLACE, EDITION, EDITION_PLACE, HEADER_BYTES, MARK, PARTS, SETTINGS, SETTINGS_PLACE,
    SIXTH_PLACE,
};
use numbers::{get, get_words};
use packing::{DEPTH_WORD, HOT_WORDS};
use wave::state::BLOCK_NUMBERS;

// Kernel number and settings.
#[tactic(auto, unfolding(crate::specs::Capture::head_in, crate::specs::Read::settings_at))]
pub(crate) fn head_of(file: &[u8]) -> Head
    ensures { result ≡ head_in (settings_at file.now) }
{
    let mut s = [0u32; SETTINGS];
    get_words(file, SETTINGS_PLACE, &mut s);
    Head {
        kernel: s[0],
        width: s[1],
        registers: s[2],
        lanes: s[3],
        budget: s[4],
    }
}

// The counts of words.
#[tactic(auto, unfolding(crate::specs::Capture::counts_in, crate::specs::Read::counts_at))]
pub(crate) fn counts_of(file: &[u8]) -> Parts<u32>
    ensures { result ≡ counts_in (counts_at file.now) }
{
    let mut n = [0u32; PARTS];
    get_words(file, COUNTS_PLACE, &mut n);
    Parts {
        code: n[0],
        registers: n[1],
        device: n[2],
        local: n[3],
        state: n[4],
    }
}

// Where each part begins, with these counts.
#[tactic(auto, unfolding(crate::specs::Read::places_in, crate::specs::Read::place_of, crate::specs::Read::end_from))]
pub(crate) fn places_of(n: Parts<u32>) -> Parts<usize>
    ensures { result ≡ places_in (in_order n) }
{
    let registers = HEADER_BYTES + 4 * (n.code as usize);
    let device = registers + 4 * (n.registers as usize);
    let local = device + 4 * (n.device as usize);
    let state = local + 4 * (n.local as usize);
    Parts {
        code: HEADER_BYTES,
        registers,
        device,
        local,
        state,
    }
}

// Where the last part ends, and the file with it. Counts of four bytes keep it small.
#[tactic(auto, unfolding(crate::specs::Read::places_in, crate::specs::Read::place_of, crate::specs::Read::end_from))]
pub(crate) fn end_of(n: Parts<u32>) -> usize
    ensures end { result ≡ place_of (in_order n) part_count }
    ensures small { result ≤ header_bytes + 4 * bound * part_count }
{
    places_of(n).state + 4 * (n.state as usize)
}

// Whether a rule holds, or else that it is broken.
#[tactic(auto, unfolding(crate::specs::Read::next))]
fn hold(holds: bool, rule: Rule, place: usize) -> Result<(), Unreadable>
    ensures { result ≡ next fine holds rule place }
{
    if holds {
        Ok(())
    } else {
        Err(Unreadable { rule, place })
    }
}

// The depth that a state's count gives.
#[tactic(auto, unfolding(crate::specs::Read::depth_of))]
fn depth_of(count: usize) -> usize
    ensures { result ≡ depth_of count }
{
    count.saturating_sub(HOT_WORDS) / BLOCK_NUMBERS
}

// Mark and edition, as soon as they are there, then the whole header.
#[tactic(auto, using(crate::proofs::Tested::stays), unfolding(crate::specs::Read::test_head))]
fn test_head(file: &[u8]) -> Result<(), Unreadable>
    ensures { result ≡ test_head file.now }
{
    let n = file.len();
    hold((n < EDITION_PLACE) | (get(file, 0) == MARK), Rule::Mark, 0)?;
    hold(
        (n < SETTINGS_PLACE) | (get(file, EDITION_PLACE) == EDITION),
        Rule::Edition,
        EDITION_PLACE,
    )?;
    hold(HEADER_BYTES <= n, Rule::Header, 4 * (n / 4))
}

// Room for a part's words.
#[tactic(auto, unfolding(crate::specs::Read::test_rooms))]
fn test_room(part: Part, count: u32, room: usize) -> Result<(), Unreadable>
    ensures { result ≡ test_rooms fine (part ∷ []) (count ∷ []) (room ∷ []) }
{
    hold(count as usize <= room, Rule::Room(part), part.count_place())
}

// Room for the words of each part.
#[tactic(auto, using(crate::proofs::Tested::room_first, crate::proofs::Tested::rooms_stay))]
fn test_rooms(n: Parts<u32>, rooms: Parts<usize>) -> Result<(), Unreadable>
    ensures { result ≡ test_rooms fine part_order (in_order n) (in_order rooms) }
{
    test_room(Part::Code, n.code, rooms.code)?;
    test_room(Part::Registers, n.registers, rooms.registers)?;
    test_room(Part::Device, n.device, rooms.device)?;
    test_room(Part::Local, n.local, rooms.local)?;
    test_room(Part::State, n.state, rooms.state)
}

// The state's count, the sixth count, the file's end and the state's depth.
#[tactic(auto, using(crate::proofs::Tested::stays, crate::proofs::Tested::depth_small, crate::proofs::Parts::ordered), unfolding(crate::specs::Read::test_state, crate::specs::Read::places_in, crate::specs::Read::place_of, crate::specs::Read::end_from))]
fn test_state(file: &[u8]) -> Result<(), Unreadable>
    ensures { result ≡ test_state fine file.now }
{
    let n = counts_of(file);
    let count = n.state as usize;
    let depth = depth_of(count);
    let depth_at = places_of(n).state + 4 * DEPTH_WORD;
    let end = end_of(n);
    hold(
        (count == 0) | (count == HOT_WORDS + BLOCK_NUMBERS * depth),
        Rule::StateCount,
        Part::State.count_place(),
    )?;
    hold(get(file, SIXTH_PLACE) == 0, Rule::SixthCount, SIXTH_PLACE)?;
    hold(file.len() == end, Rule::Length, file.len().min(end))?;
    hold(
        (count == 0) | (get(file, depth_at) as usize == depth),
        Rule::Depth,
        depth_at,
    )
}

// The first broken rule of a file, where there is this room for its words.
#[tactic(auto, using(crate::proofs::Tested::rooms_stay, crate::proofs::Tested::state_stays, crate::proofs::Parts::ordered), unfolding(crate::specs::Read::verdict_of))]
pub(crate) fn verdict_of(file: &[u8], rooms: Parts<usize>) -> Result<(), Unreadable>
    ensures { result ≡ verdict_of file.now (in_order rooms) }
{
    test_head(file)?;
    test_rooms(counts_of(file), rooms)?;
    test_state(file)
}
