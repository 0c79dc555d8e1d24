// Functions, walks and the dataflow over them: definitions (specs/) and laws (proofs/). No code stands here.

#![tactic(auto)]
