// One tick of service, step by step: what is left of each task's open job, and what a tick makes of it.
#![tactic(auto)]

pub mod backlog;
pub mod choice;
pub mod serving;
pub mod steps;
pub mod ticks;
pub mod workload;
