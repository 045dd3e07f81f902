// Cases about runs, and about keys alone. Each puts its answer; none where a case has more words or room than there is here.
use crate::format::{Answer, number, take_words};
use crate::states::{KEY_STATE, outcome_of, put_outcome, put_state, state_at};
use key::write_key;
use lanes::WIDEST;
use replay::allowed::{MOST_REGISTERS, MOST_WORDS};
use replay::doors::{launch, resume};
use stepping::answers::Replayed;
use stepping::settings::Settings;

// Where the words of a run's case begin, behind eleven numbers.
const RUN_WORDS: usize = 44;

// The most words that a case has of code and of registers, each one more than a run takes, and of each memory.
const MOST_CODE: usize = MOST_WORDS + 1;

const MOST_LANE_WORDS: usize = (WIDEST as usize) * (MOST_REGISTERS as usize) + 1;

const MOST_MEMORY: usize = 2048;

// Puts the key of what a run answered. The bytes of the room that it is written in are part of the answer.
fn put_key(to: &mut Answer, kernel: u32, answer: Replayed, room: u32) -> Option<()> {
    to.put_written(room as usize, |lent| write_key(kernel, answer, lent))
}

// The key of a case's outcome and state.
pub(crate) fn answer_key(case: &[u8], to: &mut Answer) -> Option<()> {
    let answer = Replayed {
        outcome: outcome_of(case),
        steps: 0,
        state: state_at(case, KEY_STATE),
    };
    put_key(to, number(case, 0), answer, number(case, 1))
}

// What a run's case sets beside its words.
fn settings_of(case: &[u8]) -> Settings {
    Settings {
        width: number(case, 1),
        registers: number(case, 2),
        lanes: number(case, 3),
        budget: number(case, 4),
    }
}

// The words of a run's case that the run may change, or room for them.
#[derive(Drop)]
struct Memory<'a> {
    regs: &'a mut [u32],
    device: &'a mut [u32],
    local: &'a mut [u32],
}

impl<'a> Memory<'a> {
    // As much of this room as the case has words of each; none where it has more.
    fn room_for(self, case: &[u8]) -> Option<Memory<'a>> {
        Some(Memory {
            regs: self.regs.get_mut(..number(case, 6) as usize)?,
            device: self.device.get_mut(..number(case, 7) as usize)?,
            local: self.local.get_mut(..number(case, 8) as usize)?,
        })
    }

    // Takes the words of a case from place `at` on, and answers the place behind them.
    fn take(&mut self, case: &[u8], at: usize) -> usize {
        let at = take_words(case, at, self.regs);
        let at = take_words(case, at, self.device);
        take_words(case, at, self.local)
    }

    // Puts the words as they now are.
    fn give(&self, to: &mut Answer) {
        to.put(self.regs);
        to.put(self.device);
        to.put(self.local);
    }
}

// The launch, or the run from the state whose words stand from place `at` on. Which of both the format says by a number, read here alone.
fn run(case: &[u8], at: usize, code: &[u32], memory: &mut Memory) -> Replayed {
    let settings = settings_of(case);
    if number(case, 9) == 0 {
        return launch(settings, code, memory.regs, memory.device, memory.local);
    }
    let from = state_at(case, at);
    resume(
        settings,
        from,
        code,
        memory.regs,
        memory.device,
        memory.local,
    )
}

// Puts what a run answered, and the words that it was lent as they now are.
fn put_run(to: &mut Answer, answer: Replayed, memory: &Memory) {
    put_outcome(to, answer.outcome);
    to.put(&[answer.steps]);
    put_state(to, answer.state);
    memory.give(to);
}

// The run with the words of a case, for which there is as much room as they take.
fn answer_in(case: &[u8], code: &mut [u32], memory: &mut Memory, to: &mut Answer) -> Option<()> {
    let at = take_words(case, RUN_WORDS, code);
    let at = memory.take(case, at);
    let answer = run(case, at, code, memory);
    put_run(to, answer, memory);
    put_key(to, number(case, 0), answer, number(case, 10))
}

// A run, launched or from a state, with the key of its outcome.
pub(crate) fn answer_run(case: &[u8], to: &mut Answer) -> Option<()> {
    let mut code = [0u32; MOST_CODE];
    let mut regs = [0u32; MOST_LANE_WORDS];
    let mut device = [0u32; MOST_MEMORY];
    let mut local = [0u32; MOST_MEMORY];
    let room = Memory {
        regs: &mut regs[..],
        device: &mut device[..],
        local: &mut local[..],
    };
    let code = code.get_mut(..number(case, 5) as usize)?;
    let mut memory = room.room_for(case)?;
    answer_in(case, code, &mut memory, to)
}
