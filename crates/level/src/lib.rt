// One level of a build (boomphf's `Context`): the ids that come to it are marked, then those whose position is shared are filtered out and go
// on. It works in lent words that start at the level and in the first words of collide. An id's bit is its position among the `size` bits of the level.
// Words and collide stay two parameters, and that they have room a clause: a struct of both would be no plainer, since each promise would also have to say that its
// slices are the same ones.
#![tactic(auto)]

ghost use Rattle.std.specs.Prelude.{◌≡◌, ◌≤◌, ◌<◌, length};
ghost use Rattle.bounds.specs.Bounds.{max_bits};
ghost use Rattle.laws.specs.Bits.{words_for};
ghost use Rattle.mixer.specs.Position.{position};
ghost use Rattle.level.specs.Level.{Room, ClearWords, mark_stores, mark_one, mark_all, OneFiltered, Filtered, AfterLevel};

use mixer::{Kind, hashmod};
use words::{add_bit, drop_bit, has_bit};

// What gives the ids of a level their positions: the kind of hash, the level's number and its bits.
#[derive(Clone, Copy)]
pub struct Level {
    pub kind: Kind,
    pub number: u64,
    pub size: u64,
    ghost positive: { 0 < size },
    ghost bound: { size ≤ max_bits },
}

impl Level {
    // The position of an id.
    fn position(self, id: u64) -> u64
        ensures is { result ≡ position self.kind self.number self.size id }
        ensures below { result < self.size }
    {
        hashmod(self.kind, self.number, id, self.size)
    }
}

// Marks one id: its bit is set in the level where it is met first, in collide where it is met again.
fn mark_one(level: Level, id: u64, words: &mut [u64], collide: &mut [u64])
    requires { Room level.size (mark_stores words.old collide.old) }
    ensures { mark_stores words.new collide.new
        ≡ mark_one (position level.kind level.number level.size) (mark_stores words.old collide.old) id }
{
    let bit = level.position(id);
    if !has_bit(collide, bit) && add_bit(words, bit) {
        add_bit(collide, bit);
    }
}

// Marks each id.
fn mark(level: Level, ids: &[u64], words: &mut [u64], collide: &mut [u64])
    requires { Room level.size (mark_stores words.old collide.old) }
    ensures { mark_stores words.new collide.new
        ≡ mark_all (position level.kind level.number level.size) (mark_stores words.old collide.old) ids.now }
{
    for id in ids {
        mark_one(level, *id, words, collide);
    }
}

// Filters one id: whether it goes on. If so, its bit is cleared.
fn filter_one(level: Level, id: u64, words: &mut [u64], collide: &[u64]) -> bool
    requires { Room level.size (mark_stores words.old collide.now) }
    ensures { OneFiltered (position level.kind level.number level.size) collide.now words.old id
        result words.new }
{
    let bit = level.position(id);
    let on = has_bit(collide, bit);
    if on {
        drop_bit(words, bit);
    }
    on
}

// Filters the ids. Those that go on move to the front, in order; their number is answered.
// Ids are read by their place, since others are written to the same slice on the way.
fn filter(level: Level, ids: &mut [u64], words: &mut [u64], collide: &[u64]) -> usize
    requires { Room level.size (mark_stores words.old collide.now) }
    ensures { Filtered (position level.kind level.number level.size) collide.now (length ids.old)
        words.old ids.old result words.new ids.new }
{
    let mut kept: usize = 0;
    for i in 0..ids.len() {
        let id = ids[i];
        if filter_one(level, id, words, collide) {
            ids[kept] = id;
            kept += 1;
        }
    }
    kept
}

// The whole level, for the ids that come to it. Those that go on move to the front, in order; their number is answered.
pub fn place(level: Level, ids: &mut [u64], words: &mut [u64], collide: &mut [u64]) -> usize
    requires { Room level.size (mark_stores words.old collide.old)
        × ClearWords (words_for level.size) words.old × ClearWords (words_for level.size) collide.old }
    ensures { AfterLevel (position level.kind level.number level.size) level.size (length ids.old)
        words.old collide.old ids.old result words.new collide.new ids.new }
{
    mark(level, ids, words, collide);
    filter(level, ids, words, collide)
}
