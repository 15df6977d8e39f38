// 02, item 13: the definitions are in specs/, the theorems in proofs/. This crate has no code.
#![tactic(auto)]
