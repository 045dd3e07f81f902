// A run without checks: steps from a machine until it has ended, some lane faults, or no budget is left.
ghost use Rattle.std.specs.Prelude.{◌≡◌};
ghost use Rattle.stepping.specs.Machine.{machine_of};
ghost use Rattle.stepping.specs.Step.{registers_in};
ghost use Rattle.stepping.specs.Run.{ended_at, gone, run_of};
ghost use Rattle.stepping.specs.Answer.{answered, run_from, state_machine};

use crate::answers::{Outcome, Replayed};
use crate::settings::Settings;
use crate::step::step;
use fetching::fetch_at;
use lanes::said::{Block, DEEPEST};
use lanes::{first, without};
use wave::state::{Hot, State, tidy};

// Where a run stopped: its outcome, its steps and the hot numbers.
#[derive(Clone, Copy)]
pub(crate) struct Stopped {
    pub(crate) outcome: Outcome,
    pub(crate) steps: u32,
    pub(crate) hot: Hot,
}

// Whether the place is the end of the code, or every launched lane has halted.
fn has_ended(settings: Settings, words: usize, h: Hot) -> bool
    ensures { result ≡ ended_at settings words h.place h.halted }
{
    let running = without(first(settings.lanes), h.halted);
    (words <= h.place as usize) | (running == 0)
}

// Steps from the machine on. What stands past the open blocks is as the steps leave it. The buffers stay parameters, as in a step.
fn go(
    settings: Settings,
    h: Hot,
    code: &[u32],
    blocks: &mut [Block; DEEPEST],
    regs: &mut [u32],
    device: &mut [u32],
    local: &mut [u32],
) -> Stopped
    ensures { gone result blocks.new (registers_in settings regs.new) device.new local.new
        ≡ run_of settings code.now settings.budget
        (machine_of h blocks.old (registers_in settings regs.old) device.old local.old) }
{
    let budget = settings.budget;
    let mut hot = h;
    let mut steps: u32 = 0;
    // A `loop`, since the end is told before the budget: a `for` over the budget would ask for the end in two places.
    loop {
        if has_ended(settings, code.len(), hot) {
            return Stopped {
                outcome: Outcome::Ended,
                steps,
                hot,
            };
        }
        if steps == budget {
            return Stopped {
                outcome: Outcome::OutOfBudget,
                steps,
                hot,
            };
        }
        let x = fetch_at(code, hot.place as usize);
        match step(x, settings, hot, blocks, regs, device, local) {
            Ok(next) => hot = next,
            Err(faults) => {
                return Stopped {
                    outcome: Outcome::Fault(faults),
                    steps,
                    hot,
                };
            }
        }
        steps += 1;
    }
}

// The run from a state, with no test of the code or the state. The state that it answers has zeros past its open blocks.
pub fn run_from(
    settings: Settings,
    state: State,
    code: &[u32],
    regs: &mut [u32],
    device: &mut [u32],
    local: &mut [u32],
) -> Replayed
    ensures { answered result (registers_in settings regs.new) device.new local.new
        ≡ run_from settings code.now (state_machine state (registers_in settings regs.old) device.old local.old) }
{
    let mut blocks = state.blocks;
    let hot = state.hot;
    let a = go(settings, hot, code, &mut blocks, regs, device, local);
    let outcome = a.outcome;
    let steps = a.steps;
    let end = tidy(a.hot, &mut blocks);
    Replayed {
        outcome,
        steps,
        state: State { hot: end, blocks },
    }
}
