// The control rules of one step: one control instruction, whichever it is.
#![tactic(auto)]

pub mod rules;

ghost use Rattle.std.specs.Prelude.{◌≡◌};
ghost use Rattle.control.specs.Control.{given, control_of};

use crate::rules::Stepped;
use crate::rules::aside::{break_rule, continue_rule};
use crate::rules::barrier::barrier_rule;
use crate::rules::closing::{else_rule, endif_rule, endloop_rule};
use crate::rules::going::onward;
use crate::rules::halting::halt_rule;
use crate::rules::opening::{if_rule, loop_rule};
use instructions::instr::ControlOp;
use lanes::Lanes;
use lanes::said::{Block, DEEPEST};
use wave::state::Hot;

// One control instruction, by the executing lanes t; `all` are the launched lanes. Where BARRIER faults, its lanes are answered and the
// wave is as before. What stands past the open blocks stays as lent, and a depth over 32 comes back as 32.
pub fn control(
    op: ControlOp,
    t: Lanes,
    all: Lanes,
    h: Hot,
    blocks: &mut [Block; DEEPEST],
) -> Stepped
    ensures { given result blocks.new ≡ control_of op all t h blocks.old }
{
    match op {
        ControlOp::If => Stepped {
            barrier: 0,
            hot: if_rule(h, t, blocks),
        },
        ControlOp::Else => Stepped {
            barrier: 0,
            hot: else_rule(h, blocks),
        },
        ControlOp::Endif => Stepped {
            barrier: 0,
            hot: endif_rule(h, blocks),
        },
        ControlOp::Loop => Stepped {
            barrier: 0,
            hot: loop_rule(h, blocks),
        },
        ControlOp::Break => Stepped {
            barrier: 0,
            hot: break_rule(h, t, blocks),
        },
        ControlOp::Continue => Stepped {
            barrier: 0,
            hot: continue_rule(h, t, blocks),
        },
        ControlOp::Endloop => Stepped {
            barrier: 0,
            hot: endloop_rule(h, blocks),
        },
        ControlOp::Halt => Stepped {
            barrier: 0,
            hot: halt_rule(h, t, blocks),
        },
        ControlOp::Barrier => barrier_rule(h, all, blocks),
        ControlOp::Nop => Stepped {
            barrier: 0,
            hot: onward(h, blocks),
        },
    }
}
