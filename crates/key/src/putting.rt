// The pieces of a body, put one behind another.
ghost use Rattle.std.specs.Prelude.{◌≡◌, cond, [], ◌∷◌, ◌≤◌, eqb, length};
ghost use Rattle.faulting.specs.Kinds.{fault, with_lanes, listed};
ghost use Rattle.body.specs.Body.{fault_format, block_format, body_format, set_bytes};
ghost use Rattle.lanes.specs.Blocks.{nesting};
ghost use Rattle.key.specs.Key.{parts_of};
ghost use Rattle.key.specs.Putting.{Put, PutAll};

use crate::draft::Draft;
use faulting::faults::{Faults, KINDS, lanes_of_kind};
use lanes::Lanes;
use lanes::said::Block;
use wave::state::State;

// How many kinds these lanes make: one, or none where there are no lanes.
fn kinds_of(lanes: Lanes) -> u32
    ensures { (result ≡ cond (eqb lanes 0) 0 1) × (result ≤ 1) }
{
    if lanes == 0 { 0 } else { 1 }
}

// The count of fault kinds.
fn count_of(f: Faults) -> u32
    ensures { result ≡ length (listed f) }
{
    let mut count: u32 = 0;
    for kind in 1..=KINDS {
        count += kinds_of(lanes_of_kind(kind, f));
    }
    count
}

// Puts a kind and its lanes, where there are any.
fn put_kind(draft: &mut Draft, kind: u32, lanes: Lanes)
    ensures { PutAll (fault_format set_bytes) (with_lanes (fault kind lanes ∷ [])) draft.old draft.new }
{
    if lanes == 0 {
        return;
    }
    draft.put(kind);
    draft.put(lanes);
}

// Puts each kind that has lanes, in rising order.
fn put_kinds(draft: &mut Draft, f: Faults)
    ensures { PutAll (fault_format set_bytes) (listed f) draft.old draft.new }
{
    for kind in 1..=KINDS {
        put_kind(draft, kind as u32, lanes_of_kind(kind, f));
    }
}

// Puts a block's numbers.
fn put_block(draft: &mut Draft, b: Block)
    ensures { Put (block_format set_bytes) b draft.old draft.new }
{
    draft.put(b.part);
    draft.put(b.opener);
    draft.put(b.entered);
    draft.put(b.aside);
    draft.put(b.again);
    draft.put(b.left);
}

// Puts blocks one behind another.
fn put_blocks(draft: &mut Draft, blocks: &[Block])
    ensures { PutAll (block_format set_bytes) blocks.now draft.old draft.new }
{
    for b in blocks {
        put_block(draft, *b);
    }
}

// The body of a fault: kernel number, place, fault kinds, active and halted lanes, and the open blocks, outermost first.
pub(crate) fn body_of(kernel: u32, f: Faults, state: State) -> Draft
    requires { state.hot.depth ≤ nesting }
    ensures { Put (body_format set_bytes) (parts_of kernel f state) [] result }
{
    let hot = state.hot;
    let mut draft = Draft::new();
    draft.put(kernel);
    draft.put(hot.place);
    draft.put(count_of(f));
    put_kinds(&mut draft, f);
    draft.put(hot.active);
    draft.put(hot.halted);
    draft.put(hot.depth);
    put_blocks(&mut draft, &state.blocks[..hot.depth as usize]);
    draft
}
