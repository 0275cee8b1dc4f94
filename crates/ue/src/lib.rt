// The UE's side: the HARQ-ACK report for the assignments that arrived.
#![tactic(auto)]

pub mod arrivals;
mod bits;
mod checks;
pub mod declines;
mod filling;
pub mod reports;
pub mod slots;
pub mod theorems;
pub mod transmitter;
mod walks;

pub use arrivals::{Arrival, Received, SpsOutcome};
pub use declines::{Decline, Part};
pub use reports::LONGEST_REPORT;
pub use slots::Slot;
