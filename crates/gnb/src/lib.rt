// The gNB's side: numbering of assignments, and what the report that answers them says of their blocks.
#![tactic(auto)]

pub mod batches;
pub mod counts;
pub mod grants;
pub mod marks;
pub mod states;
pub mod theorems;

pub use batches::BatchState;
pub use counts::Counts;
pub use grants::{Call, Grant, GrantEntry};
pub use marks::{Mark, Marks};
pub use states::{Awaiting, Numbering, plan};
