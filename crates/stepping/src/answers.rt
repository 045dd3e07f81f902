// What a run answers.
use faulting::faults::Faults;
use refusals::Refusal;
use wave::state::State;

// A fault has the lanes of each kind. Only a call that tests what it is given refuses.
#[derive(Clone, Copy)]
pub enum Outcome {
    Ended,
    OutOfBudget,
    Fault(Faults),
    Refused(Refusal),
}

// The outcome, the instructions carried out, and the state as it now is.
#[derive(Clone, Copy)]
pub struct Replayed {
    pub outcome: Outcome,
    pub steps: u32,
    pub state: State,
}
