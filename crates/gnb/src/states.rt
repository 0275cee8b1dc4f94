// The states of a batch. Neither is copied or let go: numbering is closed, and then the report is read or declared absent.
ghost use Rattle.gnb.specs.Limits.{Small, Sound};

use crate::batches::BatchState;
use std::marker::PhantomData;

mod calls;
mod opening;
mod plans;
mod reports;

pub use plans::plan;

// Grants may be numbered.
pub struct Open;

// Numbering is closed, and the report is awaited.
pub struct Closed;

// A batch in one of its phases. The lent table and the lent marks come with each call, and not in a struct of both: its contracts would
// speak of two loans where they now speak of two lists.
pub struct State<P> {
    batch: BatchState,
    phase: PhantomData<P>,
    ghost small: { Small batch },
    ghost sound: { Sound batch },
}

pub type Numbering = State<Open>;

pub type Awaiting = State<Closed>;
