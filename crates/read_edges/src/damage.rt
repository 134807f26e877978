// Lengths that are not those of blocks, and blocks whose number, content or check is another.
use crate::content::changed;
use image_edges::{Change, IMAGE, read, write_index};
use std::io;
use trial::stores::first;

// The image in front of a block of zeros.
pub fn lengths(rt: &impl Print) -> io::Result<()> {
    for bytes in [0, 512, 1023, 1024, 1025, 1280, 1535, 1536] {
        turned(rt, bytes, &[])?;
    }
    Ok(())
}

pub fn blocks(rt: &impl Print) -> io::Result<()> {
    numbers(rt)?;
    bits(rt)?;
    // 13 before 14.
    turned(rt, 1023, &[8])?;
    turned(rt, 1535, &[8])
}

// Blocks with another number: with the check of what they had, and with their own check.
fn numbers(rt: &impl Print) -> io::Result<()> {
    for (place, word) in [(0, 1), (64, 0)] {
        let number = Change::new(place, word);
        changed(rt, number.unmended())?;
        changed(rt, number)?;
    }
    changed(rt, Change::new(64, 2))?;
    changed(rt, Change::new(128, 3).bytes(1536))
}

// One bit turned in a number, in the first and the last content of a block, and in a check; and one in each of two blocks.
fn bits(rt: &impl Print) -> io::Result<()> {
    for place in [0, 8, 503, 504, 511, 512, 520, 1015, 1016, 1023] {
        turned(rt, 1024, &[place])?;
    }
    turned(rt, 1024, &[1023, 504])
}

// A line: so many bytes, of which these have their lowest bit turned.
fn turned(rt: &impl Print, bytes: usize, places: &[usize]) -> io::Result<()> {
    let mut image = [0; IMAGE];
    let _ = write_index(&[9], &mut image);
    print!(rt; "read, bytes {bytes}")?;
    for &place in places {
        print!(rt; ", turned {place}")?;
        if let Some(byte) = image.get_mut(place) {
            *byte ^= 1;
        }
    }
    read(rt, first(&image, bytes), 4, 1)
}
