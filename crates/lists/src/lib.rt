// The words and laws on lists of places that every crate shares. No code: see specs/ and proofs/.
#![tactic(auto)]
