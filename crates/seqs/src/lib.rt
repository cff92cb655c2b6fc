// Functions on lists that every crate shares, and a memory as a list of parts: definitions and laws alone, in specs/ and proofs/.
#![tactic(auto)]
