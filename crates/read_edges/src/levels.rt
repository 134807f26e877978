// The image of 100 levels of 255 bits, which takes ten blocks, with the level count changed.
use bounds::HEAD_SIZES;
use head::Head;
use image_edges::places::{mend, put};
use image_edges::read;
use std::io;

pub fn level_counts(rt: &impl Print) -> io::Result<()> {
    for levels in [99, 100, 101] {
        levels_are(rt, levels)?;
    }
    Ok(())
}

fn levels_are(rt: &impl Print, levels: u64) -> io::Result<()> {
    let head = Head {
        kind: 0,
        count: 3,
        levels: 100,
        sizes: [255; HEAD_SIZES],
    };
    let mut image = [7; 5120];
    let _ = image::write(&head, &[5; 400], &[6; 100], &mut image);
    put(&mut image, 4, levels);
    mend(&mut image);
    print!(rt; "read, 100 sizes, levels {levels}")?;
    read(rt, &image, 400, 100)
}
