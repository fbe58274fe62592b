//! Worked examples of the calls of the analysis, from facts and paths to certificates, and of the
//! counter, told by hand.
#![tactic(auto)]

#[cfg(test)]
mod certificates;
#[cfg(test)]
mod counter_tests;
#[cfg(test)]
mod dangers;
#[cfg(test)]
mod examples;
#[cfg(test)]
mod fact_tests;
#[cfg(test)]
mod law_tests;
#[cfg(test)]
mod pairs;
#[cfg(test)]
mod paths;
#[cfg(test)]
mod repairs;
#[cfg(test)]
mod square_tests;
