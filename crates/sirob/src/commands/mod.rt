//! The commands, each from the bytes of the input to what is written.

pub mod audit;
pub mod certify;
pub mod check;
pub mod refusal;
pub mod repair;
pub mod robust;
pub mod run;
pub mod verify;
pub mod work;
