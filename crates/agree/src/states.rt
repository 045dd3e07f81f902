// Outcomes and states as numbers of cases and answers.
use crate::format::{Answer, low, number, take_words};
use faulting::faults::{Faults, KINDS, from_lanes, lanes_of_kind, no_faults};
use packing::{STATE_WORDS, state_of, word_count, words_of};
use refusals::Refusal;
use stepping::answers::Outcome;
use wave::state::State;

// Where the lanes of each kind of fault stand in a key's case, behind five numbers, and behind them the state.
const KEY_FAULTS: usize = 20;

pub(crate) const KEY_STATE: usize = KEY_FAULTS + 4 * KINDS;

// Puts an outcome's numbers: which it is, a refusal's number and place, and the lanes of each kind of fault. Which it is the format says by a
// number, made here and read in `outcome_of` alone.
pub(crate) fn put_outcome(to: &mut Answer, outcome: Outcome) {
    let unbroken = Refusal {
        number: 0,
        place: 0,
    };
    let (which, refusal, faults) = match outcome {
        Outcome::Ended => (0, unbroken, no_faults()),
        Outcome::OutOfBudget => (1, unbroken, no_faults()),
        Outcome::Fault(faults) => (2, unbroken, faults),
        Outcome::Refused(refusal) => (3, refusal, no_faults()),
    };
    to.put(&[which, refusal.number, low(refusal.place)]);
    for kind in 1..=KINDS {
        to.put(&[lanes_of_kind(kind, faults)]);
    }
}

// Puts a state's words, of its blocks the first 32.
pub(crate) fn put_state(to: &mut Answer, state: State) {
    let hot = state.hot;
    let words = words_of(state);
    let n = word_count(hot.depth);
    to.put(&words[..n]);
}

// The lanes of each kind of fault in a key's case.
fn faults_of(case: &[u8]) -> Faults {
    let mut lanes = [0u32; KINDS];
    take_words(case, KEY_FAULTS, &mut lanes);
    from_lanes(lanes)
}

// The outcome of a key's case.
pub(crate) fn outcome_of(case: &[u8]) -> Outcome {
    match number(case, 2) {
        0 => Outcome::Ended,
        1 => Outcome::OutOfBudget,
        2 => Outcome::Fault(faults_of(case)),
        _ => Outcome::Refused(Refusal {
            number: number(case, 3),
            place: number(case, 4) as usize,
        }),
    }
}

// The state whose words end a case, from place `at` on.
pub(crate) fn state_at(case: &[u8], at: usize) -> State {
    let mut words = [0u32; STATE_WORDS];
    take_words(case, at, &mut words);
    state_of(&words)
}
