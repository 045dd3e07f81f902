// Whether a handed-in state fits.
#![tactic(auto)]

ghost use Rattle.std.specs.Prelude.{◌≡◌};
ghost use Rattle.fits.specs.FitsTest.{fits_test};

use crate::places::open_there;
use crate::sets::sets_fit;
use blocks::item::Code;
use lanes::said::NESTING;
use lanes::{WIDEST, first};
use wave::state::State;

mod places;
mod sets;

// Whether a state fits code that passed its check, with the lanes 0 to `n` - 1 launched: refusal 11 is where it does not.
pub fn fits(code: &Code, n: u32, state: &State) -> bool
    ensures { result ≡ fits_test code.now.words.now code.now.reading n state.now.hot state.now.blocks }
{
    let wide = n <= WIDEST;
    let deep = state.hot.depth <= NESTING;
    let placed = open_there(code, state);
    let sets = sets_fit(state, first(n));
    wide & deep & placed & sets
}
