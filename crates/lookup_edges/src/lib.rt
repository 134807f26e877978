// Lookups in the indexes that `build` made of no, one and two ids, and what the other lines of lookups and row lists share.
#![tactic(auto)]

mod looking;
mod stored;

pub use looking::lookups;
pub use stored::Stored;
