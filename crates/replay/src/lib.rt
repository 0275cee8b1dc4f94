// Exchanges of both cards played from values that own what they hold, told with all that both cards leave.
#![tactic(auto)]

mod answers;
pub mod failures;
pub mod playing;
mod running;
pub mod scripts;
#[cfg(test)]
mod tests;

pub use failures::Failure;
pub use playing::{Played, play};
pub use running::Way;
pub use scripts::{Request, Script};
