// The levels of a build, one after another: each is placed in the words from its place on, and its samples are written.
#![tactic(auto)]

ghost use Rattle.std.specs.Prelude.{◌≡◌, take};
ghost use Rattle.mixer.specs.Position.{position};
ghost use Rattle.head.specs.Index.{rule_of};
ghost use Rattle.run.specs.Stores.{SameStores, held};
ghost use Rattle.run.specs.Run.{Begun, Ran};
ghost use Rattle.run.specs.Turn.{Placeable, PlacedAt, Sampleable, SampledAt, TurnRoom, turned, level_turn};

use bounds::{HEAD_SIZES, LEVEL_LIMIT};
use level::Level;
use mixer::Kind;
use ranks::{part, sample_level};
use refusal::Refusal;
use words::{fill, u64s};

// The stores that are lent to a build: words and samples of the index, and the work stores.
#[derive(Drop)]
pub struct Stores<'a> {
    pub words: &'a mut [u64],
    pub samples: &'a mut [u64],
    pub collide: &'a mut [u64],
    pub rest: &'a mut [u64],
}

// How far a build has come: the next level, how many ids come to it, the words and samples that the levels before it take, and the bits set in them.
#[derive(Clone, Copy)]
struct Progress {
    level: u64,
    remaining: usize,
    words: usize,
    samples: usize,
    set: u64,
}

// A level that is placed: its size, and how far the build has come with it.
#[derive(Clone, Copy)]
struct Placed {
    size: u64,
    next: Progress,
}

impl Stores<'_> {
    // Builds one level after another for the first `count` ids of the rest store, and notes the levels' sizes; how many levels there are.
    pub fn build_levels(
        &mut self,
        kind: Kind,
        gamma: f64,
        count: usize,
        sizes: &mut [u64; HEAD_SIZES],
    ) -> Result<u64, Refusal>
        requires { Begun gamma count sizes.old (held self.old) }
        ensures same { SameStores self.old self.new }
        ensures ran { Ran (rule_of kind gamma) (take count (held self.old).rest) (held self.old)
            result sizes.new (held self.new) }
    {
        let mut at = Progress {
            level: 0,
            remaining: count,
            words: 0,
            samples: 0,
            set: 0,
        };
        for size in &mut sizes[..LEVEL_LIMIT] {
            let placed = self
                .build_level(kind, gamma, at)
                .ok_or(Refusal::NoRoomForLevel(at.level))?;
            *size = placed.size;
            at = placed.next;
            if at.remaining == 0 {
                return Ok(at.level);
            }
        }
        Err(Refusal::IdsRemain(at.remaining as u64))
    }

    // Builds the next level, if there is room for it.
    fn build_level(&mut self, kind: Kind, gamma: f64, at: Progress) -> Option<Placed>
        requires { TurnRoom gamma at (held self.old) }
        ensures same { SameStores self.old self.new }
        ensures turn { turned result (held self.new) ≡ level_turn (rule_of kind gamma) at (held self.old) }
    {
        let size = sizes::size(gamma, at.remaining as u64);
        let taken = u64s(size) as usize;
        let ranked = sizes::samples(taken as u64) as usize;
        let word_room = self.words.len() - at.words;
        let sample_room = self.samples.len() - at.samples;
        if word_room < taken || sample_room < ranked {
            return None;
        }
        let level = Level {
            kind,
            number: at.level,
            size,
        };
        let remaining = self.place_at(level, at);
        let set = self.sample_at(taken, at);
        let next = Progress {
            level: at.level + 1,
            remaining,
            words: at.words + taken,
            samples: at.samples + ranked,
            set,
        };
        Some(Placed { size, next })
    }

    // Places the ids that come to the next level, which stand at the front of the rest store, in its words, and clears collide again; how many ids go on.
    fn place_at(&mut self, level: Level, at: Progress) -> usize
        requires { Placeable level.size at (held self.old) }
        ensures same { SameStores self.old self.new }
        ensures placed { PlacedAt (position level.kind level.number level.size) level.size at
            (held self.old) result (held self.new) }
    {
        let kept = level::place(
            level,
            &mut self.rest[..at.remaining],
            &mut self.words[at.words..],
            self.collide,
        );
        fill(self.collide, u64s(level.size) as usize, 0);
        kept
    }

    // Writes the samples of the next level, which has `taken` words; the bits set up to and with it.
    fn sample_at(&mut self, taken: usize, at: Progress) -> u64
        requires { Sampleable taken at (held self.old) }
        ensures same { SameStores self.old self.new }
        ensures sampled { SampledAt taken at (held self.old) result (held self.new) }
    {
        let samples = &mut self.samples[at.samples..];
        // Lent by `&mut`, since a `&` to one field beside a `&mut` to another is not covered by the check.
        let words = &mut *self.words;
        sample_level(part(words, at.words, taken), at.set, samples)
    }
}
