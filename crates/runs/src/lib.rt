// What is shown of steps and runs, in the page's words: what comes out lane by lane, which calls are refused, what a run comes by, and that a
// state goes on in a later call. It has no code: see specs/ and proofs/.
#![tactic(auto)]
