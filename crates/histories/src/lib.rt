// Histories: every call that a heap takes, one after another, and what holds of all of them (request [8]): definitions and laws, no code. Crate `history_calls` makes the calls.

#![tactic(auto)]
