// What comes from outside: inputs of limited length, and lines of vectors.
#![tactic(auto)]

pub mod inputs;
#[cfg(test)]
mod tests;
pub mod vectors;

pub use inputs::read_input;
pub use vectors::{Vector, is_passed_over, read_vector};
