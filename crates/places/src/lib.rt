// Pure mathematics: see specs/ and proofs/. Nothing of this crate runs.
#![tactic(auto)]
