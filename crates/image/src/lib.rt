// An index on disk: an image of it in blocks of bytes, written and read.
#![tactic(auto)]

mod content;
mod reading;
mod writing;

use head::NUMBERS;
pub use reading::read;
pub use writing::write;

// The number that a content begins with is its form: what is written, and what is older and has no kind.
const FORM: u64 = 2;

const OLDER_FORM: u64 = 1;

// Where the head begins in a content, and where the words of the levels begin in one that is written.
const HEAD_PLACE: usize = 1;

const WORDS_PLACE: usize = HEAD_PLACE + NUMBERS;
