// Running a capture to its end, in one call or in slices.
ghost use Rattle.std.specs.Prelude.{◌≡◌, ◌+◌, ◌≤◌, is_none, unwrap_or};
ghost use Rattle.stepping.specs.Step.{registers_in};
ghost use Rattle.stepping.specs.Answer.{answered};
ghost use Rattle.replay.specs.Replay.{most_steps, not_launched, resume_of};
ghost use Rattle.runs.specs.Calls.{budgeted as with_budget, added};
ghost use Rattle.runs.specs.Starting.{start_of, stopped};

use crate::keeping::keep_state;
use crate::memory::Memory;
use captures::answer::Head;
use replay::allowed::MOST_STEPS;
use replay::doors::{launch, resume};
use stepping::answers::{Outcome, Replayed};
use stepping::settings::Settings;
use wave::state::State;

// The steps of the first slice, soon over, and of each later one.
const FIRST_SLICE: u32 = 1_000_000;

const SLICE: u32 = 20_000_000;

// Whether a run stopped because its budget was spent.
#[tactic(auto, unfolding(runs::specs::Starting::stopped))]
fn is_stopped(outcome: Outcome) -> bool
    ensures { result ≡ stopped outcome }
{
    matches!(outcome, Outcome::OutOfBudget)
}

// The same settings with another budget.
fn budgeted(settings: Settings, budget: u32) -> Settings
    ensures { result ≡ with_budget budget settings }
{
    Settings { budget, ..settings }
}

// A line of how many steps the run has made.
fn say_steps(rt: &impl Eprint, steps: u32) {
    let _ = eprintln!(rt; "steps {steps}");
}

// Launches, or goes on from the state where there is one.
fn start(settings: Settings, from: Option<State>, code: &[u32], memory: &mut Memory) -> Replayed
    ensures { answered result (registers_in settings memory.new.regs.now) memory.new.device.now memory.new.local.now
        ≡ start_of (is_none from) settings (unwrap_or from not_launched) code.now (registers_in settings memory.old.regs.now) memory.old.device.now memory.old.local.now }
{
    match from {
        None => launch(settings, code, memory.regs, memory.device, memory.local),
        Some(state) => resume(
            settings,
            state,
            code,
            memory.regs,
            memory.device,
            memory.local,
        ),
    }
}

// Goes on from what was answered before, and counts the steps of both.
fn go_further(settings: Settings, before: Replayed, code: &[u32], memory: &mut Memory) -> Replayed
    requires { before.steps + settings.budget ≤ most_steps }
    ensures { answered result (registers_in settings memory.new.regs.now) memory.new.device.now memory.new.local.now
        ≡ added before.steps
        (resume_of settings before.state code.now (registers_in settings memory.old.regs.now) memory.old.device.now memory.old.local.now) }
{
    let state = before.state;
    let mut after = resume(
        settings,
        state,
        code,
        memory.regs,
        memory.device,
        memory.local,
    );
    after.steps = before.steps + after.steps;
    after
}

// The run of a capture in slices, each from the state that the one before returned. After each but the last the state is kept, so that
// no more than a slice can be lost, and a line says how far it is.
fn run_in_slices(
    rt: &HostRuntime,
    settings: Settings,
    from: Option<State>,
    head: Head,
    code: &[u32],
    memory: &mut Memory,
    file: &mut [u8],
) -> Replayed
    requires { settings.budget ≤ most_steps }
    ensures { answered result (registers_in settings memory.new.regs.now) memory.new.device.now memory.new.local.now
        ≡ start_of (is_none from) settings (unwrap_or from not_launched) code.now (registers_in settings memory.old.regs.now) memory.old.device.now memory.old.local.now }
{
    let first = settings.budget.min(FIRST_SLICE);
    let mut answer = start(budgeted(settings, first), from, code, memory);
    let mut left = settings.budget - first;
    // A `while`, since a turn takes a slice of what is left, and nothing is counted by one.
    while 0 < left {
        let outcome = answer.outcome;
        if !is_stopped(outcome) {
            break;
        }
        keep_state(rt, head, answer, code, memory, file);
        say_steps(rt, answer.steps);
        let next = left.min(SLICE);
        answer = go_further(budgeted(settings, next), answer, code, memory);
        left -= next;
    }
    answer
}

// The run of a capture, in slices or in one call. A budget that is refused goes in one call.
pub(crate) fn run(
    rt: &HostRuntime,
    settings: Settings,
    from: Option<State>,
    head: Head,
    sliced: bool,
    code: &[u32],
    memory: &mut Memory,
    file: &mut [u8],
) -> Replayed
    ensures { answered result (registers_in settings memory.new.regs.now) memory.new.device.now memory.new.local.now
        ≡ start_of (is_none from) settings (unwrap_or from not_launched) code.now (registers_in settings memory.old.regs.now) memory.old.device.now memory.old.local.now }
{
    let slices = sliced & (settings.budget <= MOST_STEPS);
    if slices {
        return run_in_slices(rt, settings, from, head, code, memory, file);
    }
    start(settings, from, code, memory)
}
