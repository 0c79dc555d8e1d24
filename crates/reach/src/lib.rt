// Chains of objects and the marking theorem: the definitions stand in specs/, their laws in proofs/. This crate has no code.

#![tactic(auto)]
