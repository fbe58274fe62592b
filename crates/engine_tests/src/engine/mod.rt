//! Scripts over devices that are slow, and that fail at each of their calls; records, events and
//! witnesses.

mod device_tests;
mod event_list_tests;
mod event_tests;
mod fakes;
mod line_tests;
mod record_tests;
mod witness_tests;
