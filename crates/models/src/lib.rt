// What an object of a slot holds under a type table, and a heap as far as two saves are compared (02, [5]). This crate has no code.

#![tactic(auto)]
