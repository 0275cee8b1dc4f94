// Traces of a batch: numbers, records, and faults with their place.
#![tactic(auto)]

pub mod answers;
pub mod batches;
pub mod faults;
pub mod files;
pub mod kinds;
pub mod lines;
pub mod numbers;
mod readers;
pub mod records;

pub use batches::{Batch, read_batch};
pub use faults::{Failure, Fault, Layer};
pub use files::read_records;
pub use kinds::{Kind, UnknownKind};
pub use lines::{fault_line, report_line};
pub use records::Record;
