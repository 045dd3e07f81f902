// The ways into a replay: a launch, and going on from a state.
ghost use Rattle.std.specs.Prelude.{◌≡◌};
ghost use Rattle.stepping.specs.Step.{registers_in};
ghost use Rattle.stepping.specs.Answer.{answered};
ghost use Rattle.replay.specs.Replay.{refused_as, launch_of, resume_of};

use crate::refusing::{test_launch, test_resume};
use refusals::Refusal;
use stepping::answers::{Outcome, Replayed};
use stepping::run::run_from;
use stepping::settings::Settings;
use wave::launch::{launched, not_launched};
use wave::state::State;

// What local memory holds when a launched run starts.
pub const FILL: u32 = 0;

// A refusal: zero steps, and the state handed in.
fn refused(refusal: Refusal, state: State) -> Replayed
    ensures { result ≡ refused_as refusal state }
{
    Replayed {
        outcome: Outcome::Refused(refusal),
        steps: 0,
        state,
    }
}

// The code and the buffers are lent apart, here and below: a struct that holds a `&mut` owes in each contract that it holds the same one
// still, and a caller would have to make it.

// A kernel from its start. Refusals 1 to 10 change nothing lent and return place 0, empty sets and no block; otherwise local memory was
// filled, whatever came after.
#[tactic(auto, using(crate::proofs::Entering::refused_by, crate::proofs::Entering::run_by, crate::proofs::Entering::launched_run), unfolding(crate::specs::Replay::launch_of))]
pub fn launch(
    settings: Settings,
    code: &[u32],
    regs: &mut [u32],
    device: &mut [u32],
    local: &mut [u32],
) -> Replayed
    ensures { answered result (registers_in settings regs.new) device.new local.new
        ≡ launch_of settings code.now (registers_in settings regs.old) device.old local.old }
{
    match test_launch(settings, code, regs) {
        Err(refusal) => refused(refusal, not_launched()),
        Ok(()) => {
            local.fill(FILL);
            run_from(
                settings,
                launched(settings.lanes),
                code,
                regs,
                device,
                local,
            )
        }
    }
}

// A kernel from a state that an earlier run returned, or any other that fits. Refusals 1 to 11 change nothing lent and return the state
// handed in.
pub fn resume(
    settings: Settings,
    state: State,
    code: &[u32],
    regs: &mut [u32],
    device: &mut [u32],
    local: &mut [u32],
) -> Replayed
    ensures { answered result (registers_in settings regs.new) device.new local.new
        ≡ resume_of settings state code.now (registers_in settings regs.old) device.old local.old }
{
    match test_resume(settings, state, code, regs) {
        Err(refusal) => refused(refusal, state),
        Ok(()) => run_from(settings, state, code, regs, device, local),
    }
}
