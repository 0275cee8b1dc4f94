// Grants: what is asked for, and what stands in the grant table.
use crate::marks::Marks;

// A downlink grant that is to be numbered.
#[derive(Clone, Copy, Debug, Default)]
pub struct Grant {
    pub cell: u32,
    // 0: 1_0, 1: 1_1, 2: 1_2. Any number may come, and another is refused.
    pub format: u32,
    // Transport blocks; 0 is an SPS release or a dormancy message.
    pub blocks: u32,
}

// An assignment as it was sent, with the marks of its blocks.
#[derive(Clone, Copy, Debug, Default)]
pub struct GrantEntry {
    pub cell: u32,
    pub occasion: u32,
    // As in a grant: a lent table may hold any number.
    pub format: u32,
    pub blocks: u32,
    // Counted from 1.
    pub number: u32,
    // The DAI field.
    pub field: u32,
    pub marks: Marks,
}

// A numbering call: an occasion and its grants.
#[derive(Clone, Copy)]
pub struct Call<'a> {
    pub occasion: u32,
    pub grants: &'a [Grant],
}
