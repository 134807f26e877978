// The indexes of no, one and three ids, each of one level of 255 bits: written to the front of a byte store, and read back. The positions of 9, 10 and 11 are 130, 115 and 13.
use crate::lines::show;
use build_edges::Small;
use refusal::Refusal;
use std::io;
use trial::print::answer;
use trial::stores::first;

// The bytes of the store of an image, which has two blocks, and of a third behind it.
pub const IMAGE: usize = 1536;

pub fn written(rt: &impl Print) -> io::Result<()> {
    index(rt, &[])?;
    index(rt, &[9])?;
    index(rt, &[9, 10, 11])
}

// The lines of an index: how many blocks it takes, each word of them, and what they are read as.
fn index(rt: &impl Print, ids: &[u64]) -> io::Result<()> {
    let mut image = [7; IMAGE];
    let blocks = write_index(ids, &mut image);
    answer(
        rt,
        format_args!("image of {} ids, blocks", ids.len()),
        blocks,
    )?;
    show(rt, first(&image, 1024))
}

// Writes the image of the index of these ids, of which there are three at most.
pub fn write_index(ids: &[u64], image: &mut [u8]) -> Result<u64, Refusal> {
    let index = Small::build(2.0, ids);
    image::write(&index.head(), &index.words, &index.samples, image)
}
