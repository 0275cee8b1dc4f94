// Why a text cannot be read as an exchange.
use std::alloc::AllocError;
use thiserror::Error;

#[derive(Debug, Drop, Error)]
pub enum Failure {
    #[error("the numbers are not those of an exchange")]
    Unreadable,
    #[error("no memory is left")]
    Memory(#[from(alloc)] AllocError),
}
