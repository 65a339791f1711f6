// Admission: the cycle of a plan under a policy, and the verdict whether its mandatory jobs can all be served.
#![tactic(auto)]

pub mod admit;
mod cycle;
pub mod fault;
mod misses;
mod spans;
pub mod theorems;
