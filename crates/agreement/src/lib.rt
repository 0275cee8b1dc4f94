// The claim that both cards agree, over the definitions of their calls.
#![tactic(auto)]

pub mod fates;
pub mod theorems;

pub use fates::Fate;
pub use theorems::cards_agree;
