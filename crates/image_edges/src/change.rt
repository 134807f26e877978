// Images that are changed before they are read.
ghost use Rattle.std.specs.Prelude.{◌≡◌, ◌*◌, IsTrue, false};
ghost use Rattle.block.specs.declared.TheConstants.{BLOCK_BYTES};

use crate::IMAGE;
use crate::lines::read;
use crate::places::{mend, put};
use std::{fmt, io};
use trial::stores::first;

// So many bytes of an image, in which a word is put in some place, and then the checks are mended or not; read into stores of so many places.
#[derive(Clone, Copy)]
pub struct Change {
    pub bytes: usize,
    pub place: usize,
    pub word: u64,
    pub mended: bool,
    pub words: usize,
    pub samples: usize,
}

impl Change {
    // Of two blocks, whose checks are mended; read into stores of one level of 255 bits.
    pub fn new(place: usize, word: u64) -> Change
        ensures place { result.place ≡ place }
        ensures word { result.word ≡ word }
        ensures blocks { result.bytes ≡ 2 * BLOCK_BYTES }
        ensures mended { IsTrue result.mended }
    {
        Change {
            bytes: 1024,
            place,
            word,
            mended: true,
            words: 4,
            samples: 1,
        }
    }

    pub fn bytes(self, bytes: usize) -> Change
        ensures { result ≡ record self { bytes = bytes } }
    {
        Change { bytes, ..self }
    }

    pub fn unmended(self) -> Change
        ensures { result ≡ record self { mended = false } }
    {
        Change {
            mended: false,
            ..self
        }
    }

    // Read into stores of so many places.
    pub fn into_stores(self, words: usize, samples: usize) -> Change
        ensures { result ≡ record self { words = words; samples = samples } }
    {
        Change {
            words,
            samples,
            ..self
        }
    }

    // A line: how this image is changed, and what it is read as.
    pub fn read(
        &self,
        rt: &impl Print,
        name: impl fmt::Display + Drop,
        mut image: [u8; IMAGE],
    ) -> io::Result<()> {
        print!(rt;
            "{name}, bytes {}, word {} is {}",
            self.bytes, self.place, self.word
        )?;
        put(&mut image, self.place, self.word);
        if self.mended {
            print!(rt; ", mended")?;
            mend(&mut image);
        }
        read(rt, first(&image, self.bytes), self.words, self.samples)
    }
}
