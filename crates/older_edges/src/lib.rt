// Older images, which begin with 1 and have no kind: read, and written again as they are now. In that of an index of one level of 255 bits, word 1 has the form, 2 the id count, 3 the level count, 4 to 62
// and 65 to 105 the sizes, 106 to 109 the words, 110 the sample, and 111 to 126 the fill.
#![tactic(auto)]

use head::Head;
use image_edges::places::{mend, put};
use image_edges::{Change, IMAGE, show};
use std::io;
use trial::print::answer;
use trial::stores::first;

// The three first words of the index of 9.
const WORDS_OF_9: [u64; 3] = [0, 0, 4];

// Of no ids, of 9, and of 9, 10 and 11, whose positions are 130, 115 and 13.
pub fn indexes(rt: &impl Print) -> io::Result<()> {
    index(rt, 0, [0, 0, 0])?;
    index(rt, 1, WORDS_OF_9)?;
    index(rt, 3, [8192, 2_251_799_813_685_248, 4])
}

// The lines of an index: the older image, and the one that is written of what was read.
fn index(rt: &impl Print, count: u64, first_words: [u64; 3]) -> io::Result<()> {
    let mut image = older(count, first_words);
    println!(rt; "older image of {count} ids")?;
    show(rt, first(&image, 1024))?;
    let mut words = [7; 6];
    let mut samples = [7; 3];
    let found = image::read(first(&image, 1024), &mut words, &mut samples);
    let head = found.unwrap_or(Head::none());
    let blocks = image::write(&head, &words, &samples, &mut image);
    answer(rt, "written again, blocks", blocks)?;
    show(rt, first(&image, 1024))
}

// The older image of an index of so many ids with these three first words in one level of 255 bits, and a block 2 of zeros behind it.
fn older(count: u64, first_words: [u64; 3]) -> [u8; IMAGE] {
    let mut image = [0; IMAGE];
    let [word_0, word_1, word_2] = first_words;
    for (place, word) in [
        (1, 1),
        (2, count),
        (3, 1),
        (4, 255),
        (64, 1),
        (106, word_0),
        (107, word_1),
        (108, word_2),
        (128, 2),
    ] {
        put(&mut image, place, word);
    }
    mend(&mut image);
    image
}

// The id count, which stands where the form that is written has its kind; the level count, sizes, a word, the sample and the fill.
const CHANGES: [(usize, u64); 11] = [
    (2, 1),
    (2, 2),
    (2, 1_048_577),
    (3, 0),
    (4, 254),
    (5, 1),
    (105, 1),
    (106, 1),
    (110, 1),
    (111, 1),
    (126, 1),
];

pub fn changes(rt: &impl Print) -> io::Result<()> {
    for (place, word) in CHANGES {
        changed(rt, Change::new(place, word))?;
    }
    block_counts(rt)?;
    changed(rt, Change::new(2, 1).into_stores(3, 1))?;
    changed(rt, Change::new(2, 1).into_stores(4, 0))?;
    changed(rt, Change::new(2, 2).unmended())?;
    // As the form that is written, with the id count for a kind.
    changed(rt, Change::new(1, 2))
}

// In two and three blocks: 1,152 bits fill two, and one bit more takes a third.
fn block_counts(rt: &impl Print) -> io::Result<()> {
    for (bytes, bits, words) in [
        (1024, 1152, 18),
        (1024, 1153, 19),
        (1536, 1152, 18),
        (1536, 1153, 19),
    ] {
        let blocks = Change::new(4, bits).bytes(bytes);
        changed(rt, blocks.into_stores(words, 3))?;
    }
    Ok(())
}

// A line: the older image of 9 is changed and read.
fn changed(rt: &impl Print, change: Change) -> io::Result<()> {
    change.read(rt, "read older", older(1, WORDS_OF_9))
}
