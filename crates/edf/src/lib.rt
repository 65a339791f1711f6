// Earliest-deadline-first service under patterns: the rules stand in specs/, and the contract of each function is a theorem about them.
#![tactic(auto)]

pub mod admission;
pub mod counting;
pub mod meetings;
pub mod service;
