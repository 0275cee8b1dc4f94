// Both cards in one call.
#![tactic(auto)]

mod arrivals;
pub mod exchanges;
mod openings;
mod recorders;
mod reports;
mod settlements;
pub mod ways;

pub use agreement::Fate;
pub use exchanges::{Batch, Exchanged};
pub use ways::{Inverted, Plain, Way};
