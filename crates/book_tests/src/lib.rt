// Examples of plans and books: each refusal with its place, books of every shape, and damaged ones.
#![tactic(auto)]

#[cfg(test)]
mod books;
#[cfg(test)]
mod damage;
#[cfg(test)]
mod plans;
#[cfg(test)]
mod samples;
