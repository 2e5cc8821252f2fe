// What is promised across the crates. No code: specs/ has the statements, proofs/ their proofs.
#![tactic(auto)]
