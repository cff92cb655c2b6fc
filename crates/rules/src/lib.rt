// What the store must do, as definitions over plain lists: see specs/ and proofs/. Nothing of this crate runs.
#![tactic(auto)]
