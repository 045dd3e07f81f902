// Which executing lanes have a number other than 0: the set, whether it has any, and whether it has all.
ghost use Rattle.std.specs.Prelude.{◌≡◌, cond, eqb, get_or};
ghost use Rattle.across.specs.Across.{nonzero, zeros};

use crate::sources::Sources;
use lanes::Lanes;

impl<'a> Sources<'a> {
    // The executing lanes whose number isn't 0. A loop that `faulting` has too, by a test that is handed in: shared it would be public and have
    // a `requires`, that the test may be called, which no public function has.
    pub(crate) fn nonzero_lanes(&self) -> Lanes
        ensures { result ≡ nonzero self.now.width.lanes self.now.t (λ j. get_or self.now.numbers.now j 0) }
    {
        let mut set: Lanes = 0;
        for lane in 0..self.width.lanes {
            let told = self.numbers[lane as usize] != 0;
            set = lanes::union(set, lanes::only(lane, lanes::has(self.t, lane) & told));
        }
        set
    }

    // 1 where an executing lane has a number other than 0, and else 0.
    pub(crate) fn any_nonzero(&self) -> u32
        ensures { result ≡ cond (eqb (nonzero self.now.width.lanes self.now.t (λ j. get_or self.now.numbers.now j 0)) 0) 0 1 }
    {
        u32::from(self.nonzero_lanes() != 0)
    }

    // 1 where no executing lane has the number 0, and else 0.
    pub(crate) fn all_nonzero(&self) -> u32
        ensures { result ≡ cond (eqb (zeros self.now.width.lanes self.now.t (λ j. get_or self.now.numbers.now j 0)) 0) 1 0 }
    {
        let told = self.nonzero_lanes();
        let every = lanes::meet(self.t, lanes::first(self.width.lanes));
        u32::from(lanes::without(every, told) == 0)
    }
}
