// Live registers by a dataflow over rows of bits. Inner functions: a plan says what they require.
#![tactic(auto)]

pub mod chains;
pub mod fixpoint;
