// The marked table: the requirements' worked cases, proved by one statement. It has no code: see specs/ and proofs/.
#![tactic(auto)]
