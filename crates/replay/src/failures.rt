// Why nothing comes of an exchange.
ghost use Rattle.std.specs.Prelude.{◌≡◌, alloc_error};
ghost use Rattle.replay.specs.declared.failures.Failure.TheVariants as failure;

use harq::Refusal;
use std::alloc::{AllocError, AllocFailed};

#[derive(Debug, Drop)]
pub enum Failure {
    // Opening is declined.
    Declined(Refusal),
    Memory(AllocError),
}

// These three by hand: contracts name the failure that `?` makes, and a derived `From` has no contract.
impl From<Refusal> for Failure {
    ghost from_gives = { λ e r. r ≡ failure.Declined e };

    fn from(e: Refusal) -> Failure {
        Failure::Declined(e)
    }
}

impl From<AllocError> for Failure {
    ghost from_gives = { λ e r. r ≡ failure.Memory e };

    fn from(e: AllocError) -> Failure {
        Failure::Memory(e)
    }
}

impl<T: Drop> From<AllocFailed<T>> for Failure {
    ghost from_gives = { λ _ r. r ≡ failure.Memory alloc_error };

    fn from(e: AllocFailed<T>) -> Failure {
        Failure::Memory(AllocError::from(e))
    }
}
