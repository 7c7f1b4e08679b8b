// What a history means: specs/ defines presence, chains, faults, the verdict and change instants; proofs/ has the
// theorems. Its code is the type of histories whose rows fit, and the way from tables to such a value.
#![tactic(auto)]

pub mod ruled;
pub mod take;
