// The source lanes of a wave operation, whose numbers count only where they execute.
ghost use Rattle.std.specs.Prelude.{◌≡◌, ◌<◌, get_or};
ghost use Rattle.lanes.specs.Sets.{widest};
ghost use Rattle.across.specs.Across.{brought, from_lane};

use lanes::{ByLane, Lanes, Width};

// A number of each lane of a wave, the lanes that execute, and how many lanes the wave has.
#[derive(Clone, Copy)]
pub(crate) struct Sources<'a> {
    pub(crate) numbers: &'a ByLane,
    pub(crate) t: Lanes,
    pub(crate) width: Width,
}

impl<'a> Sources<'a> {
    // What a lane brings: its number, and `idle` where it doesn't execute. The lane is asked to be below the widest as an index is.
    pub(crate) fn bring(&self, lane: u32, idle: u32) -> u32
        requires { lane < widest }
        ensures { result ≡ brought idle self.now.t (λ j. get_or self.now.numbers.now j 0) lane }
    {
        let number = self.numbers[lane as usize];
        if lanes::has(self.t, lane) {
            number
        } else {
            idle
        }
    }

    // The number of any lane: 0 where it doesn't execute, or is past the width.
    pub(crate) fn from_lane(&self, lane: u32) -> u32
        ensures { result ≡ from_lane self.now.width.lanes self.now.t (λ j. get_or self.now.numbers.now j 0) lane }
    {
        if lane < self.width.lanes {
            return self.bring(lane, 0);
        }
        0
    }
}
