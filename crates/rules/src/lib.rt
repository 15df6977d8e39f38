// The rules of document 01 are in specs/, the theorems about them in proofs/: this crate has no code.
#![tactic(auto)]
