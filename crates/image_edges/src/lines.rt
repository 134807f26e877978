// What is shown of an image.
use crate::places::Words;
use block::BLOCK_BYTES;
use build_edges::Outcome;
use head::Head;
use std::io;
use trial::print::{Contents, Numbers};
use trial::stores::first_mut;

// The largest stores that a line asks for: room for 100 levels of 255 bits.
const WORDS: usize = 400;

const SAMPLES: usize = 100;

// The end of a line: what reading an image answers, and what it leaves in stores of so many places that held 7.
pub fn read(rt: &impl Print, image: &[u8], words: usize, samples: usize) -> io::Result<()> {
    let mut word_store = [7; WORDS];
    let mut sample_store = [7; SAMPLES];
    let words = first_mut(&mut word_store, words);
    let samples = first_mut(&mut sample_store, samples);
    let found = image::read(image, words, samples);
    let head = found.unwrap_or(Head::none());
    let numbers = [head.kind, head.count, head.levels, head.sizes[0]];
    print!(rt; ": {}, head{}", Outcome(found), Numbers(&numbers))?;
    print!(rt; ", later sizes{}", Contents(&head.sizes[1..]))?;
    println!(rt; ", words{}, samples{}", Contents(words), Contents(samples))
}

// The lines of an image of whole blocks: the words of each, and what they are read as.
pub fn show(rt: &impl Print, image: &[u8]) -> io::Result<()> {
    for block in image.chunks_exact(BLOCK_BYTES) {
        println!(rt; "words{}", Words(block))?;
    }
    print!(rt; "read back")?;
    read(rt, image, 6, 3)
}
