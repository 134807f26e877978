// Rows on both sides of a sample.
use bounds::HEAD_SIZES;
use head::Head;
use std::io;
use trial::print::Numbers;

// Ids by their positions in a level 0 of 640 bits.
const AT_511: u64 = 475;

const AT_512: u64 = 25;

const AT_513: u64 = 2736;

// A level of 640 bits, of which the first 576 are set.
pub fn sampled(rt: &impl Print) -> io::Result<()> {
    let mut words = [u64::MAX; 10];
    words[9] = 0;
    let mut samples = [7; 2];
    ranks::sample_level(&words, 0, &mut samples);
    println!(rt;
        "640 bits, words 0 to 8 all ones, samples:{}",
        Numbers(&samples)
    )?;
    let mut sizes = [0; HEAD_SIZES];
    sizes[0] = 640;
    let head = Head {
        kind: 0,
        count: 576,
        levels: 1,
        sizes,
    };
    for id in [AT_511, AT_512, AT_513] {
        row(rt, &head, &words, &samples, id)?;
    }
    Ok(())
}

// A line: the position that a lookup answers, and the row.
fn row(rt: &impl Print, head: &Head, words: &[u64], samples: &[u64], id: u64) -> io::Result<()> {
    match lookup::lookup(head, words, samples, id) {
        Ok(Some(place)) => println!(rt; "its row at position {}: {}", place.position, place.row),
        _ => println!(rt; "no row"),
    }
}
