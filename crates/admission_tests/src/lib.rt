// Tests of admission: the worked meetings, classic mistakes, cycles at the limit, and refused spans that start late.
#![tactic(auto)]

#[cfg(test)]
mod cycles;
#[cfg(test)]
mod late_spans;
#[cfg(test)]
mod meetings;
#[cfg(test)]
mod samples;
