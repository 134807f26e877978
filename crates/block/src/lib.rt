// The blocks of an image, as bytes: words lowest byte first, the check of a block, and where content stands. What a step asks, its callers have proved.
#![tactic(auto)]

ghost use Rattle.std.specs.Prelude.{◌≡◌, ◌+◌, ◌*◌, ◌/◌, ◌≤◌, length};
ghost use Rattle.laws.specs.Counting.{each};
ghost use Rattle.laws.specs.Stores.{pasted};
ghost use Rattle.block.specs.Bytes.{word_bytes, bytes_of, word_at};
ghost use Rattle.block.specs.Block.{block_content, block_bytes, check_place, check_step, check_of, blocks_for, block_word, is_good, first_bad, content_at};

const WORD_BYTES: usize = 8;

pub const BLOCK_WORDS: usize = 64;

pub const BLOCK_CONTENT: usize = 62;

pub const BLOCK_BYTES: usize = WORD_BYTES * BLOCK_WORDS;

// The word of a block that holds its check.
pub const CHECK_PLACE: usize = 63;

// The word at place j.
pub fn word_at(bytes: &[u8], j: usize) -> u64
    requires { word_bytes * j + word_bytes ≤ length bytes.now }
    ensures { result ≡ word_at bytes.now j }
{
    let (words, _) = bytes.as_chunks::<WORD_BYTES>();
    u64::from_le_bytes(words[j])
}

// Writes a word at place j.
pub fn put_word(bytes: &mut [u8], j: usize, word: u64)
    requires { word_bytes * j + word_bytes ≤ length bytes.old }
    ensures { bytes.new ≡ pasted (word_bytes * j) (bytes_of word) bytes.old }
{
    let at = WORD_BYTES * j;
    bytes[at..at + WORD_BYTES].copy_from_slice(&word.to_le_bytes());
}

// The check with one word more.
pub fn check_step(check: u64, word: u64) -> u64
    ensures { result ≡ check_step check word }
{
    mixer::mix(check ^ word, 0)
}

// The check of the words of block b before the last.
fn check_at(image: &[u8], b: usize) -> u64
    requires { block_bytes * b + block_bytes ≤ length image.now }
    ensures { result ≡ check_of (each (block_word image.now b) check_place) }
{
    let (words, _) = image.as_chunks::<WORD_BYTES>();
    let first = BLOCK_WORDS * b;
    words[first..first + CHECK_PLACE]
        .iter()
        .copied()
        .map(u64::from_le_bytes)
        .fold(0, check_step)
}

// Whether block b has its number and its check.
fn is_good(image: &[u8], b: usize) -> bool
    requires { block_bytes * b + block_bytes ≤ length image.now }
    ensures { result ≡ is_good image.now b }
{
    let first = BLOCK_WORDS * b;
    word_at(image, first) == b as u64 && word_at(image, first + CHECK_PLACE) == check_at(image, b)
}

// The first of n blocks that is not good; n if all are.
pub fn first_bad(image: &[u8], n: usize) -> usize
    requires { block_bytes * n ≤ length image.now }
    ensures { result ≡ first_bad image.now n }
{
    (0..n).find(|&b| !is_good(image, b)).unwrap_or(n)
}

// Content word c.
pub fn content_at(image: &[u8], c: usize) -> u64
    requires { block_bytes * (c / block_content) + block_bytes ≤ length image.now }
    ensures { result ≡ content_at image.now c }
{
    word_at(
        image,
        BLOCK_WORDS * (c / BLOCK_CONTENT) + (1 + c % BLOCK_CONTENT),
    )
}

// How many blocks so many content words take.
pub fn blocks_for(n: u64) -> u64
    ensures { result ≡ blocks_for n }
{
    n.div_ceil(BLOCK_CONTENT as u64)
}
