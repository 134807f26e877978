// The words of an image by their places, of which nothing is asked: past the end a word is 0, and nothing is written there.
use block::{BLOCK_BYTES, CHECK_PLACE, check_step, put_word, word_at};
use std::fmt;

pub fn word(image: &[u8], place: usize) -> u64 {
    if place < image.len() / 8 {
        word_at(image, place)
    } else {
        0
    }
}

pub fn put(image: &mut [u8], place: usize, word: u64) {
    if place < image.len() / 8 {
        put_word(image, place, word);
    }
}

// Puts the checks of the first three blocks.
pub fn mend(image: &mut [u8]) {
    for block in image.chunks_exact_mut(BLOCK_BYTES).take(3) {
        mend_block(block);
    }
}

fn mend_block(block: &mut [u8]) {
    let (words, _) = block.as_chunks::<8>();
    let checked = words.iter().take(CHECK_PLACE);
    let check = checked
        .map(|word| u64::from_le_bytes(*word))
        .fold(0, check_step);
    put(block, CHECK_PLACE, check);
}

// The words of an image, each behind a space.
#[derive(Clone, Copy)]
pub struct Words<'a>(pub &'a [u8]);

impl fmt::Display for Words<'_> {
    fn fmt<W: fmt::Write>(&self, f: &mut fmt::Formatter<W>) -> fmt::Result {
        let (words, _) = self.0.as_chunks::<8>();
        for word in words {
            write!(f, " {}", u64::from_le_bytes(*word))?;
        }
        Ok(())
    }
}
