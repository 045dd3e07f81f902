// The executing lanes of an instruction.
ghost use Rattle.std.specs.Prelude.{◌≡◌};
ghost use Rattle.wave.specs.Wave.{preds_of};
ghost use Rattle.wave.specs.Going.{holding, executing_of};

use crate::state::Hot;
use instructions::instr::Guard;
use lanes::{Lanes, without};

// The lanes at which a predicate holds. Predicate 0, or a number that is no predicate, holds at the active ones. The predicates go in as
// numbers of their own: chosen by their number from the hot numbers, they would keep those in memory at every step.
fn holding_lanes(p: u8, active: Lanes, p1: Lanes, p2: Lanes, p3: Lanes) -> Lanes
    ensures { result ≡ holding p active (record { p1 = p1; p2 = p2; p3 = p3 }) }
{
    match p {
        1 => p1,
        2 => p2,
        3 => p3,
        _ => active,
    }
}

// The active lanes whose predicate agrees.
pub fn executing(g: Guard, h: Hot) -> Lanes
    ensures { result ≡ executing_of g h.active (preds_of h) }
{
    let on = holding_lanes(g.pred, h.active, h.p1, h.p2, h.p3);
    if g.negate {
        without(h.active, on)
    } else {
        h.active & on
    }
}
