// The text of an instruction, and its reading. It has no code: see specs/ and proofs/.
#![tactic(auto)]
