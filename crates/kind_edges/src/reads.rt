// Reading the image of the index of 9 with another kind in it, in blocks with their numbers and checks. Word 1 has the form, 2 the kind, and `read_edges` says what the others have.
use image_edges::places::put;
use image_edges::{Change, IMAGE, write_index};
use std::io;

pub(crate) fn kinds(rt: &impl Print) -> io::Result<()> {
    for kind in [0, 1, 2, u64::MAX] {
        changed(rt, kind, Change::new(1, 2))?;
    }
    // 15 for the form before 16.
    changed(rt, 1, Change::new(1, 0))?;
    changed(rt, 1, Change::new(1, 3))?;
    changed(rt, 1, Change::new(1, u64::MAX))
}

// Kind 1 beside what another refusal asks.
pub(crate) fn beside(rt: &impl Print) -> io::Result<()> {
    // 16 before 15 for the head, an unused size, the block count and the fill, and before 11.
    changed(rt, 1, Change::new(3, 1_048_577))?;
    changed(rt, 1, Change::new(4, 0))?;
    changed(rt, 1, Change::new(5, 254))?;
    changed(rt, 1, Change::new(6, 1))?;
    changed(rt, 1, Change::new(1, 2).bytes(1536))?;
    changed(rt, 1, Change::new(112, 1))?;
    changed(rt, 1, Change::new(1, 2).into_stores(3, 0))?;
    // 13 and 14 before 16.
    changed(rt, 1, Change::new(1, 2).bytes(1023))?;
    changed(rt, 1, Change::new(1, 2).unmended())
}

// A line: the image, with this kind and with a block 2 of zeros behind it, is changed and read.
fn changed(rt: &impl Print, kind: u64, change: Change) -> io::Result<()> {
    let mut image = [0; IMAGE];
    let _ = write_index(&[9], &mut image);
    put(&mut image, 2, kind);
    put(&mut image, 128, 2);
    change.read(rt, format_args!("read, kind {kind}"), image)
}
