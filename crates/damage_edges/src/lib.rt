// Lookups of 9 in the index of 9 and 10, with a head and stores that are damaged on purpose.
#![tactic(auto)]

use build_edges::Small;
use head::Head;
use lookup_edges::Stored;
use std::io;
use trial::stores::first;

pub fn lookups(rt: &impl Print) -> io::Result<()> {
    let built = Small::build(2.0, &[9, 10]);
    let index = Stored::of(&built);
    in_stores(rt, index)?;
    by_heads(rt, index)
}

// In a store of samples that has another number, and in stores that are too short.
fn in_stores(rt: &impl Print, index: Stored<'_>) -> io::Result<()> {
    for sample in [2, 1_048_576, 1_048_577] {
        let changed = Stored {
            samples: &[sample],
            ..index
        };
        changed.lookup(rt, format_args!("9, sample {sample}"), 9)?;
    }
    let no_sample = Stored {
        samples: &[],
        ..index
    };
    no_sample.lookup(rt, "9, in no sample", 9)?;
    let three_words = Stored {
        words: first(index.words, 3),
        ..index
    };
    three_words.lookup(rt, "9, in 3 words", 9)
}

fn by_heads(rt: &impl Print, index: Stored<'_>) -> io::Result<()> {
    let head = index.head;
    let by = |head| Stored { head, ..index };
    let levels = |levels| by(Head { levels, ..head });
    let bits = |bits| by(resized(head, bits));
    let count = |count| by(Head { count, ..head });
    levels(0).lookup(rt, "9, no level", 9)?;
    levels(101).lookup(rt, "9, 101 levels", 9)?;
    bits(254).lookup(rt, "9, 254 bits", 9)?;
    bits(16_777_217).lookup(rt, "9, 16777217 bits", 9)?;
    count(1_048_576).lookup(rt, "9, 1048576 ids", 9)?;
    count(1_048_577).lookup(rt, "9, 1048577 ids", 9)?;
    count(0).lookup(rt, "9, no ids", 9)
}

// A head with another size of level 0.
fn resized(head: Head, bits: u64) -> Head {
    let mut sizes = head.sizes;
    sizes[0] = bits;
    Head { sizes, ..head }
}
