// The refusals of a run, in their order.
ghost use Rattle.std.specs.Prelude.{◌≡◌, ◌*◌};
ghost use Rattle.refusals.specs.Table.{broken};
ghost use Rattle.replay.specs.Replay.{settings_right, reading_of, refused_unless, bounds_test, launch_test, resume_test};

use crate::allowed::{MOST_REGISTERS, MOST_STEPS, MOST_WORDS};
use blocks::item::{Code, Reading};
use fits::fits;
use refusals::{Refusal, Rule, broken};
use stepping::settings::Settings;
use wave::state::State;

// Whether every setting is allowed.
fn settings_right(s: Settings) -> bool
    ensures { result ≡ settings_right s }
{
    ((s.width == 8) | (s.width == 16) | (s.width == 32))
        & (1 <= s.registers)
        & (s.registers <= MOST_REGISTERS)
        & (1 <= s.lanes)
        & (s.lanes <= s.width)
        & (s.budget <= MOST_STEPS)
}

// The code, and what it is checked for.
fn code_for(s: Settings, words: &[u32]) -> Code<'_>
    ensures words { result.words.now ≡ words.now }
    ensures reading { result.reading ≡ reading_of s }
{
    let reading = Reading {
        registers: s.registers,
    };
    Code { words, reading }
}

// The refusal of `rule` at place 0, unless all is well.
pub(crate) fn refuse_unless(ok: bool, rule: Rule) -> Result<(), Refusal>
    ensures { result ≡ refused_unless ok (broken rule 0) }
{
    if ok { Ok(()) } else { Err(broken(rule, 0)) }
}

// 1 a setting, 2 code too long, 3 register buffer length.
pub(crate) fn test_bounds(s: Settings, code: &[u32], regs: &[u32]) -> Result<(), Refusal>
    ensures { result ≡ bounds_test s code.now regs.now }
{
    refuse_unless(settings_right(s), Rule::Setting)?;
    refuse_unless(code.len() <= MOST_WORDS, Rule::LongCode)?;
    let size = (s.width as usize) * (s.registers as usize);
    refuse_unless(regs.len() == size, Rule::Buffer)
}

// 1 to 3, then instruction by instruction 4 to 9, then 10. The code is read only where it is not too long.
pub(crate) fn test_launch(s: Settings, code: &[u32], regs: &[u32]) -> Result<(), Refusal>
    ensures { result ≡ launch_test s code.now regs.now }
{
    test_bounds(s, code, regs)?;
    code_for(s, code).check()
}

// 1 to 10, then 11: the state doesn't fit.
pub(crate) fn test_resume(
    s: Settings,
    state: State,
    code: &[u32],
    regs: &[u32],
) -> Result<(), Refusal>
    ensures { result ≡ resume_test s state code.now regs.now }
{
    test_launch(s, code, regs)?;
    let state_fits = fits(&code_for(s, code), s.lanes, &state);
    refuse_unless(state_fits, Rule::State)
}
