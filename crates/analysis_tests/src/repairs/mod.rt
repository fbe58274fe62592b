//! Analyses and repairs of sets, from their texts to those of certificates and repaired sets.

mod certify_tests;
mod repair_tests;
mod sets;
