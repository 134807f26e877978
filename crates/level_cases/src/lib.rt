// Cases of one level and of its ranks: what the numbers of a line are, and whether a call answers as it says. `store` is a copy of the line, which a call may write to.
#![tactic(auto)]

mod placing;
mod ranking;

pub use placing::place;
pub use ranking::{rank, samples};
