// What an image is written of: the content, word by word.
ghost use Rattle.std.specs.Prelude.{◌≡◌, length};
ghost use Rattle.bounds.specs.Bounds.{head_sizes};
ghost use Rattle.image.specs.Image.{content_of};

use crate::{FORM, HEAD_PLACE, WORDS_PLACE};
use head::Head;

// A head, and the words and the samples that its levels use.
#[derive(Clone, Copy)]
pub(crate) struct Content<'a> {
    pub(crate) head: &'a Head,
    pub(crate) words: &'a [u64],
    pub(crate) samples: &'a [u64],

    // The array has so many sizes: no proof knows that of a struct behind a reference.
    ghost sized: { length head.now.sizes ≡ head_sizes },
}

impl Content<'_> {
    // Word c.
    pub(crate) fn word(&self, c: usize) -> u64
        ensures { result ≡ content_of self.now.head.now self.now.words.now self.now.samples.now c }
    {
        if c < HEAD_PLACE {
            return FORM;
        }
        if c < WORDS_PLACE {
            return self.head.number(c - HEAD_PLACE);
        }
        let w = c - WORDS_PLACE;
        if w < self.words.len() {
            return self.words[w];
        }
        let s = w - self.words.len();
        if s < self.samples.len() {
            return self.samples[s];
        }
        0
    }
}
