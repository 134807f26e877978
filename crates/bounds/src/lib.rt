// The bounds of an index, and how far apart its samples stand. Each number is named once in code, here, and once for the promises, in
// specs/Bounds.antt.
#![tactic(auto)]

pub const MAX_IDS: u64 = 1_048_576;

// The most bits of a level or a set, and the fewest of a level.
pub const MAX_BITS: u64 = 16_777_216;

pub const MIN_BITS: u64 = 255;

// How many levels a build may come to: 0 to 99.
pub const LEVEL_LIMIT: usize = 100;

// How many sizes a head has.
pub const HEAD_SIZES: usize = 100;

// The most levels that a head may name.
pub const MAX_LEVELS: u64 = 100;

// There is a sample for every so many words of a level, and so for every so many bits.
pub const SAMPLE_WORDS: u64 = 8;

pub const SAMPLE_BITS: u64 = 64 * SAMPLE_WORDS;
