// Writing a trace, so that it is read back as it was.
#![tactic(auto)]

pub mod numbers;
mod records;
pub mod traces;

pub use numbers::write_number;
pub use traces::write_trace;
