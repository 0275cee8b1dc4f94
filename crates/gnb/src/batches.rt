// What the gNB's card holds of a batch: plain numbers, so that contracts compare it by equality.
use harq::Config;

#[derive(Drop)]
pub struct BatchState {
    pub config: Config,
    // SPS entries.
    pub sps: u32,
    // The occasion of the last accepted call.
    pub last: Option<u32>,
    // Grants numbered so far.
    pub numbered: u32,
    // Blocks granted so far, each SPS entry counting as one.
    pub granted: u32,
}
