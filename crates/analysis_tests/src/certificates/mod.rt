//! Certificates as text, and what the checker says of some.

mod checked_tests;
mod refused_tests;
mod text_tests;
