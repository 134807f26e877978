// Reading the image of the index of 9, whose length, blocks, content or stores are changed on purpose.
#![tactic(auto)]

mod content;
mod damage;
mod levels;

pub use content::{contents, stores};
pub use damage::{blocks, lengths};
pub use levels::level_counts;
