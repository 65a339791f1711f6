// Task books of one or two blocks of 512 bytes: reading them into plans, writing plans, going through the records.
#![tactic(auto)]

pub mod block;
pub mod cursor;
pub mod fault;
pub mod reader;
pub mod theorems;
pub mod writer;
