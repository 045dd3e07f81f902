// Whether the open blocks of a handed-in state are those that the code has open at its place.
ghost use Rattle.std.specs.Prelude.{◌≡◌, ◌≤◌, ◌<◌};
ghost use Rattle.lanes.specs.Blocks.{nesting};
ghost use Rattle.blocks.specs.Code.{code_of};
ghost use Rattle.nesting.specs.OpenAt.{open_at};
ghost use Rattle.wave.specs.Wave.{wave_of};
ghost use Rattle.fits.specs.FitsTest.{place_test, same_block, same_blocks};

use blocks::item::Code;
use lanes::said::{Block, DEEPEST};
use nesting::places::{Stack, open_at};
use wave::state::{State, depth_of};

// Whether block d of the array has the part and the opener of block d of the stack.
fn same_block(d: u32, blocks: &[Block; DEEPEST], stack: &Stack) -> bool
    requires { d < nesting }
    ensures { result ≡ same_block blocks.now stack.now.blocks d }
{
    let i = d as usize;
    let open = stack.blocks[i];
    (blocks[i].part == u32::from(open.part)) & (blocks[i].opener as usize == open.opener)
}

// Whether the first d blocks of the array have the parts and the openers of the stack.
fn same_blocks(d: u32, blocks: &[Block; DEEPEST], stack: &Stack) -> bool
    requires { d ≤ nesting }
    ensures { result ≡ same_blocks blocks.now stack.now.blocks d }
{
    let mut ok = true;
    for i in 0..d {
        ok &= same_block(i, blocks, stack);
    }
    ok
}

// Whether the place is an instruction's first word or the end, and the open blocks are those that the code has open there, in order, with
// the right half of each IF.
pub(crate) fn open_there(code: &Code, state: &State) -> bool
    ensures { result ≡ place_test (open_at (code_of code.now.words.now code.now.reading) state.now.hot.place) (wave_of state.now.hot state.now.blocks).path }
{
    let d = depth_of(state.hot.depth);
    match open_at(code, state.hot.place as usize) {
        Some(stack) => (stack.depth == d as usize) & same_blocks(d, &state.blocks, &stack),
        None => false,
    }
}
