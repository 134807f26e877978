// Writing the index of 9, with a head, stores and a byte store that are changed on purpose. The byte store holds 7 everywhere.
#![tactic(auto)]

use bounds::HEAD_SIZES;
use head::Head;
use image_edges::IMAGE;
use image_edges::places::word;
use std::io;
use trial::print::{Numbers, answer};
use trial::stores::{first, first_mut};

// The words and samples of the index of 9, and 7 past them.
const WORDS: [u64; 6] = [0, 0, 4, 0, 7, 7];

const SAMPLES: [u64; 3] = [0, 7, 7];

// An index by a head with these sizes of levels 0, 1 and 99, from stores of so many places to so many bytes.
#[derive(Clone, Copy)]
pub struct Write {
    pub kind: u64,
    pub count: u64,
    pub levels: u64,
    pub size_0: u64,
    pub size_1: u64,
    pub size_99: u64,
    pub words: usize,
    pub samples: usize,
    pub bytes: usize,
}

// The index of 9, from and to stores of just what it needs: what the other lines change.
pub const OF_9: Write = Write {
    kind: 0,
    count: 1,
    levels: 1,
    size_0: 255,
    size_1: 0,
    size_99: 0,
    words: 4,
    samples: 1,
    bytes: 1024,
};

impl Write {
    pub fn head(&self) -> Head {
        let mut sizes = [0; HEAD_SIZES];
        sizes[0] = self.size_0;
        sizes[1] = self.size_1;
        sizes[99] = self.size_99;
        Head {
            kind: self.kind,
            count: self.count,
            levels: self.levels,
            sizes,
        }
    }

    // A line: what is found in the place of the two checks, how many bytes at the end are 7, and the answer.
    pub fn show(&self, rt: &impl Print) -> io::Result<()> {
        let words = first(&WORDS, self.words);
        let samples = first(&SAMPLES, self.samples);
        let mut store = [7; IMAGE];
        let image = first_mut(&mut store, self.bytes);
        let blocks = image::write(&self.head(), words, samples, image);
        print!(rt; "write, head {} {} {}", self.kind, self.count, self.levels)?;
        print!(rt; " {} {} {}", self.size_0, self.size_1, self.size_99)?;
        print!(rt; ", room {} {} {}", self.words, self.samples, self.bytes)?;
        print!(rt; ", checks {} {}", word(image, 63), word(image, 127))?;
        let kept = image.iter().rev().take_while(|byte| **byte == 7).count();
        answer(rt, format_args!(", kept {kept}"), blocks)
    }
}

pub fn writes(rt: &impl Print) -> io::Result<()> {
    OF_9.show(rt)?;
    Write {
        words: 6,
        samples: 3,
        bytes: 1536,
        ..OF_9
    }
    .show(rt)?;
    unfit_heads(rt)?;
    Write { words: 3, ..OF_9 }.show(rt)?;
    Write { samples: 0, ..OF_9 }.show(rt)?;
    Write { size_1: 1, ..OF_9 }.show(rt)?;
    Write { size_99: 1, ..OF_9 }.show(rt)?;
    Write {
        bytes: 1023,
        ..OF_9
    }
    .show(rt)?;
    // 7 before 15, and 15 before 11.
    Write {
        size_1: 1,
        words: 3,
        bytes: 1023,
        ..OF_9
    }
    .show(rt)?;
    Write {
        size_1: 1,
        bytes: 1023,
        ..OF_9
    }
    .show(rt)
}

fn unfit_heads(rt: &impl Print) -> io::Result<()> {
    let levels = |levels| Write { levels, ..OF_9 };
    let count = |count| Write { count, ..OF_9 };
    let size_0 = |size_0, words| Write {
        size_0,
        words,
        ..OF_9
    };
    count(1_048_576).show(rt)?;
    count(1_048_577).show(rt)?;
    levels(0).show(rt)?;
    levels(101).show(rt)?;
    size_0(254, 4).show(rt)?;
    size_0(256, 4).show(rt)?;
    size_0(257, 4).show(rt)?;
    size_0(257, 5).show(rt)?;
    size_0(16_777_217, 4).show(rt)
}
