// One number made of the executing lanes' numbers, lane after lane; and the sums below each lane.
ghost use Rattle.std.specs.Prelude.{◌≡◌, get_or};
ghost use Rattle.lanes.specs.EachLane.{by_lane};
ghost use Rattle.instructions.specs.declared.instr.TwoOp.{TwoOp};
ghost use Rattle.across.specs.Across.{fold_below, sum_below};
ghost use Rattle.across.specs.Joins.{Joins};

use crate::sources::Sources;
use arith::sums::add;
use lanes::{ByLane, EACH_LANE};

impl<'a> Sources<'a> {
    // What the executing lanes make of their numbers by an operation on two, from `idle` on, which a lane that doesn't execute brings.
    pub(crate) fn fold<F: Fn(u32, u32) -> u32>(&self, idle: u32, join: F) -> u32
        requires { F.IsAlwaysCallable join }
        ensures { (o : TwoOp) → Joins (F.post join) o → result ≡ fold_below o idle self.now.t (λ j. get_or self.now.numbers.now j 0) self.now.width.lanes }
    {
        let mut made = idle;
        for lane in 0..self.width.lanes {
            made = join(made, self.bring(lane, idle));
        }
        made
    }

    // For each lane the sum of the executing lanes below it. Sums wrap.
    pub(crate) fn prefix_sums(&self) -> ByLane
        ensures { result ≡ by_lane self.now.width.lanes (sum_below self.now.t (λ j. get_or self.now.numbers.now j 0)) }
    {
        let mut out = [0u32; EACH_LANE];
        let mut below: u32 = 0;
        for lane in 0..self.width.lanes {
            out[lane as usize] = below;
            below = add(below, self.bring(lane, 0));
        }
        out
    }
}
