// Contents that are no index, in blocks with their numbers and checks. In the image of 9, word 1 has the form that a content begins with, 2 the kind, 3 the id count, 4 the level count, 5 to 62 and 65
// to 106 the sizes, 107 to 110 the words, 111 the sample, and 112 to 126 the fill.
use image_edges::places::put;
use image_edges::{Change, IMAGE, write_index};
use std::io;

pub fn contents(rt: &impl Print) -> io::Result<()> {
    heads(rt)?;
    for place in [6, 62, 65, 106, 107, 111, 112, 126] {
        changed(rt, Change::new(place, 1))?;
    }
    block_counts(rt)?;
    // 14 before 15.
    changed(rt, Change::new(1, 3).unmended())
}

// The form, the id count, the level count and the size of level 0.
const HEADS: [(usize, u64); 14] = [
    (1, 0),
    (1, 1),
    (1, 2),
    (1, 3),
    (3, 1_048_576),
    (3, 1_048_577),
    (4, 0),
    (4, 1),
    (4, 2),
    (4, 101),
    (5, 254),
    (5, 255),
    (5, 256),
    (5, 16_777_217),
];

fn heads(rt: &impl Print) -> io::Result<()> {
    for (place, word) in HEADS {
        changed(rt, Change::new(place, word))?;
    }
    Ok(())
}

// In two and three blocks: 1,088 bits fill two, and one bit more takes a third.
fn block_counts(rt: &impl Print) -> io::Result<()> {
    for (bytes, bits, words) in [
        (1024, 1088, 17),
        (1024, 1089, 18),
        (1536, 1088, 17),
        (1536, 1089, 18),
    ] {
        let blocks = Change::new(5, bits).bytes(bytes);
        changed(rt, blocks.into_stores(words, 3))?;
    }
    changed(rt, Change::new(5, 255).bytes(1536))
}

// Stores of exactly the need, of one place fewer, and of more.
pub fn stores(rt: &impl Print) -> io::Result<()> {
    for (words, samples) in [(4, 1), (3, 1), (4, 0), (6, 3)] {
        changed(rt, Change::new(1, 2).into_stores(words, samples))?;
    }
    changed(rt, Change::new(5, 257))?;
    changed(rt, Change::new(5, 257).into_stores(5, 1))?;
    // 14 and 15 before 11.
    let short = Change::new(1, 3).into_stores(3, 0);
    changed(rt, short.unmended())?;
    changed(rt, short)
}

// A line: the image, with a block 2 of zeros behind it, is changed and read.
pub(crate) fn changed(rt: &impl Print, change: Change) -> io::Result<()> {
    let mut image = [0; IMAGE];
    let _ = write_index(&[9], &mut image);
    put(&mut image, 128, 2);
    change.read(rt, "read", image)
}
