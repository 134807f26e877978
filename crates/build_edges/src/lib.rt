// Builds on both sides of each refusal, in stores that hold 7 everywhere: what each answers, and what it leaves in every store.
#![tactic(auto)]

use head::Head;
use refusal::Refusal;
use std::{fmt, io};
use trial::print::{Contents, Numbers};
use trial::stores::{first, first_mut};

mod small;

pub use small::Small;

// What is built: the first so many of these ids.
const IDS: [u64; 2] = [9, 9];

// The largest stores that a line here asks for: room for 100 levels of 255 bits.
const WORDS: usize = 400;

const SAMPLES: usize = 100;

// A build by a kind of hash, of so many ids, in stores of so many places.
#[derive(Clone, Copy)]
pub struct Build {
    pub kind: u64,
    pub gamma: f64,
    pub ids: usize,
    pub words: usize,
    pub samples: usize,
    pub collide: usize,
    pub rest: usize,
}

impl Build {
    // A line: its answer, and what the stores hold after it.
    pub fn show(&self, rt: &impl Print, name: impl fmt::Display + Drop) -> io::Result<()> {
        let mut word_store = [7; WORDS];
        let mut sample_store = [7; SAMPLES];
        let mut collide_store = [7; 8];
        let mut rest_store = [7; 8];
        let words = first_mut(&mut word_store, self.words);
        let samples = first_mut(&mut sample_store, self.samples);
        let collide = first_mut(&mut collide_store, self.collide);
        let rest = first_mut(&mut rest_store, self.rest);
        let ids = first(&IDS, self.ids);
        let built = build::build(self.kind, self.gamma, ids, words, samples, collide, rest);
        let head = built.unwrap_or(Head::none());
        let numbers = [
            head.kind,
            head.count,
            head.levels,
            head.sizes[0],
            head.sizes[1],
        ];
        print!(rt;
            "build, {name}: {}, head{}",
            Outcome(built),
            Numbers(&numbers)
        )?;
        print!(rt; ", words{}, samples{}", Contents(words), Contents(samples))?;
        println!(rt; ", collide{}, rest{}", Contents(collide), Contents(rest))
    }
}

// One id, in stores of just what it needs: what the other lines change.
pub const ONE: Build = Build {
    kind: 0,
    gamma: 2.0,
    ids: 1,
    words: 4,
    samples: 1,
    collide: 4,
    rest: 1,
};

// An id that stands twice, in stores for all levels.
const TWO: Build = Build {
    ids: 2,
    words: WORDS,
    samples: SAMPLES,
    rest: 2,
    ..ONE
};

pub fn accepted(rt: &impl Print) -> io::Result<()> {
    Build {
        ids: 0,
        rest: 0,
        ..ONE
    }
    .show(rt, "no ids")?;
    ONE.show(rt, "one id")?;
    Build {
        words: 8,
        samples: 4,
        collide: 8,
        rest: 4,
        ..ONE
    }
    .show(rt, "one id, in longer stores")
}

pub fn refused(rt: &impl Print) -> io::Result<()> {
    Build { gamma: 1.01, ..ONE }.show(rt, "gamma 1.01")?;
    Build {
        gamma: 16.000000000000004,
        ..ONE
    }
    .show(rt, "gamma above 16")?;
    Build { rest: 0, ..ONE }.show(rt, "a rest store of no place")?;
    Build { collide: 3, ..ONE }.show(rt, "a collide store of 3 words")?;
    Build { words: 3, ..ONE }.show(rt, "3 words")?;
    Build { samples: 0, ..ONE }.show(rt, "no sample")?;
    TWO.show(rt, "an id twice, 400 words, 100 samples")?;
    Build { words: 399, ..TWO }.show(rt, "an id twice, 399 words")?;
    Build { samples: 99, ..TWO }.show(rt, "an id twice, 99 samples")
}

// What a call that makes a head answers, with the value that its refusal carries.
#[derive(Clone, Copy)]
pub struct Outcome(pub Result<Head, Refusal>);

impl fmt::Display for Outcome {
    fn fmt<W: fmt::Write>(&self, f: &mut fmt::Formatter<W>) -> fmt::Result {
        match self.0 {
            Ok(_) => f.write_str("done"),
            Err(refusal) => write!(f, "{refusal} giving {}", refusal.value()),
        }
    }
}
