// Plans of a terminal: tasks that keep their bounds by their type, and refusals that say why.
#![tactic(auto)]

pub mod checks;
pub mod compare;
pub mod draft;
pub mod fault;
pub mod plan;
pub mod rows;
pub mod task;
pub mod theorems;
pub mod words;
