//! Worked examples of the calls of the language's crates, of the places of a text, and of the words
//! for its faults. What the program shows in `cases/` is left to the cases.
#![tactic(auto)]

#[cfg(test)]
mod change_tests;
#[cfg(test)]
mod check_tests;
#[cfg(test)]
mod copy_tests;
#[cfg(test)]
mod each_tests;
#[cfg(test)]
mod equality_tests;
#[cfg(test)]
mod fault_tests;
#[cfg(test)]
mod place_tests;
#[cfg(test)]
mod played;
#[cfg(test)]
mod refused_tests;
#[cfg(test)]
mod run_tests;
#[cfg(test)]
mod text_tests;
#[cfg(test)]
mod told;
#[cfg(test)]
mod value_tests;
#[cfg(test)]
mod word_tests;
