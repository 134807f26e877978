// Levels: gammas on both sides of their two bounds, sizes, and rows on both sides of a sample.
#![tactic(auto)]

mod ranking;
mod sizing;

pub use ranking::sampled;
pub use sizing::{gammas, sizes};
