// Whether the sets of a handed-in state fit.
ghost use Rattle.std.specs.Prelude.{◌≡◌};
ghost use Rattle.wave.specs.Wave.{wave_of, preds_of};
ghost use Rattle.fits.specs.FitsTest as test;

use lanes::Lanes;
use lanes::said::{Block, LOOP};
use wave::state::{State, depth_of};

// Whether no lane is in both sets.
fn apart(a: Lanes, b: Lanes) -> bool
    ensures { result ≡ test.apart a b }
{
    let both = a & b;
    both == 0
}

// Whether c is the disjoint union of a and b.
fn joins(a: Lanes, b: Lanes, c: Lanes) -> bool
    ensures { result ≡ test.joins a b c }
{
    let either = a | b;
    apart(a, b) & (either == c)
}

// Whether each lane of a is in b.
fn within(a: Lanes, b: Lanes) -> bool
    ensures { result ≡ test.within a b }
{
    let both = a & b;
    both == a
}

// The lanes `inner`, and those set aside in b.
fn with_aside(inner: Lanes, b: Block) -> Lanes
    ensures { result ≡ test.with_aside inner b }
{
    inner | b.aside | b.again
}

// Whether one block fits, with `inner` the active lanes and those set aside inside it.
fn block_fits(all: Lanes, inner: Lanes, b: Block) -> bool
    ensures { result ≡ test.block_test all inner b }
{
    let waiting = inner | b.aside;
    let quiet = (b.part == LOOP) | (b.again == 0);
    let lanes = with_aside(inner, b);
    within(b.entered, all)
        & quiet
        & apart(inner, b.aside)
        & apart(waiting, b.again)
        & joins(b.left, lanes, b.entered)
}

// Whether the sets fit; `all` are the launched lanes.
pub(crate) fn sets_fit(state: &State, all: Lanes) -> bool
    ensures { result ≡ test.sets_test all (wave_of state.now.hot state.now.blocks) (preds_of state.now.hot) }
{
    let h = state.hot;
    let mut ok = true;
    let mut inner = h.active;
    let d = depth_of(h.depth);
    for i in (0..d).rev() {
        let b = state.blocks[i as usize];
        ok &= block_fits(all, inner, b);
        inner = with_aside(inner, b);
    }
    let path = ok & joins(inner, h.halted, all);
    path & within(h.p1, all) & within(h.p2, all) & within(h.p3, all)
}
