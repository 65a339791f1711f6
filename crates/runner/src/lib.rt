// The runner: what it is asked and answers, its rules, and its whole promise.
#![tactic(auto)]

mod board;
pub mod call;
pub mod calls;
pub mod fault;
pub mod replay;
pub mod runner;
mod serving;
pub mod starts;
pub mod theorems;
