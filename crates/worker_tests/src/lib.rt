//! Worked examples, told by hand, of a shared book, of jobs run by workers and of events on a
//! robust set.
#![tactic(auto)]

#[cfg(test)]
mod book;
#[cfg(test)]
mod jobs;
#[cfg(test)]
mod part_tests;
#[cfg(test)]
mod robust_tests;
#[cfg(test)]
mod sets;
#[cfg(test)]
mod states_tests;
