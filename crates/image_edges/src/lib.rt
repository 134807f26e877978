// Images of the indexes of no, one and three ids, written and read back; and what the other lines about images share.
#![tactic(auto)]

mod change;
mod indexes;
mod lines;
pub mod places;

pub use change::Change;
pub use indexes::{IMAGE, write_index, written};
pub use lines::{read, show};
