// A number for each lane, worked out of the lane alone.
ghost use Rattle.std.specs.Prelude.{◌≡◌, ℕ, ◌<◌};
ghost use Rattle.lanes.specs.EachLane.{by_lane};

use lanes::{ByLane, EACH_LANE, Width};

// What `f` answers of each lane of a wave of this width, 0 for the others of the widest.
pub(crate) fn each_lane<F: Fn(u32) -> u32>(width: Width, f: F) -> ByLane
    requires { (i : ℕ) → i < width.lanes → F.pre f i }
    ensures { (g : ℕ → ℕ) → ((i r : ℕ) → i < width.lanes → F.post f i r → r ≡ g i) → result ≡ by_lane width.lanes g }
{
    let mut out = [0u32; EACH_LANE];
    for i in 0..width.lanes {
        out[i as usize] = f(i);
    }
    out
}
