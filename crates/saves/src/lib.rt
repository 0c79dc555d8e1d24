// The same model in two saves, and the order of saves (02, [5]): what the two calls answer. This crate has no code.

#![tactic(auto)]
