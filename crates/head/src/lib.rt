// The head of an index, and the check that it fits its bounds and its stores.
#![tactic(auto)]

ghost use Rattle.std.specs.Prelude.{◌≡◌, ◌≤◌, ◌↔◌, All, IsTrue};
ghost use Rattle.bounds.specs.Bounds.{head_sizes};
ghost use Rattle.head.specs.Index.{no_head};
ghost use Rattle.head.specs.Layout.{unused_clear, fit};
ghost use Rattle.head.specs.Fit.{used_fits, measured};

use bounds::{HEAD_SIZES, MAX_BITS, MAX_IDS, MAX_LEVELS, MIN_BITS};
use sizes::samples;
use words::u64s;

mod numbers;

pub use numbers::NUMBERS;

// The number of its kind of hash, the id count, the level count and the level sizes, of which the unused ones are 0.
#[derive(Clone, Copy)]
pub struct Head {
    pub kind: u64,
    pub count: u64,
    pub levels: u64,
    pub sizes: [u64; HEAD_SIZES],
}

// How many words and samples the levels of a head use.
#[derive(Clone, Copy)]
pub struct Used {
    pub words: u64,
    pub samples: u64,
}

impl Used {
    // Whether stores of so many words and samples have room for it.
    pub fn fits(&self, word_room: usize, sample_room: usize) -> bool
        ensures { result ≡ used_fits self.now word_room sample_room }
    {
        self.words <= word_room as u64 && self.samples <= sample_room as u64
    }
}

impl Head {
    // The head of no index, which hosts get beside a refusal: all 0.
    pub fn none() -> Head
        ensures { result ≡ no_head }
    {
        Head {
            kind: 0,
            count: 0,
            levels: 0,
            sizes: [0; HEAD_SIZES],
        }
    }

    // What its levels use, if its numbers keep their bounds.
    pub fn measure(&self) -> Option<Used>
        ensures { result ≡ measured self.now.count self.now.levels self.now.sizes }
    {
        if self.levels < 1 || self.levels > MAX_LEVELS || self.count > MAX_IDS {
            return None;
        }
        let mut words: u64 = 0;
        let mut sampled: u64 = 0;
        for &size in &self.sizes[..self.levels as usize] {
            if size < MIN_BITS || size > MAX_BITS {
                return None;
            }
            let taken = u64s(size);
            words += taken;
            sampled += samples(taken);
        }
        Some(Used {
            words,
            samples: sampled,
        })
    }

    // Whether it keeps its bounds and fits stores of so many words and samples.
    pub fn is_fit(&self, word_room: usize, sample_room: usize) -> bool
        ensures { result ≡ fit self.now.count self.now.levels self.now.sizes word_room sample_room }
    {
        match self.measure() {
            Some(used) => used.fits(word_room, sample_room),
            None => false,
        }
    }

    // Whether each size past its levels is 0.
    pub fn unused_clear(&self) -> bool
        requires { self.now.levels ≤ head_sizes }
        ensures { result ≡ unused_clear self.now.levels self.now.sizes }
    {
        let levels = self.levels as usize;
        all_0(&self.sizes[levels..])
    }
}

// Whether each of the sizes is 0. A function, since its promise is of the part alone.
fn all_0(sizes: &[u64]) -> bool
    ensures { IsTrue result ↔ All (λ size. size ≡ 0) sizes.now }
{
    sizes.iter().all(|size| *size == 0)
}
