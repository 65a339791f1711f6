// Pattern policies: which jobs of a task are mandatory under an (m,k) constraint.
#![tactic(auto)]

mod constraint;
pub mod even;
pub mod policy;
pub mod red;
pub mod shifted;
pub mod theorems;
