// Cases of lookups: what the numbers of a line are, and whether the lookup for hosts answers as it says.
#![tactic(auto)]

ghost use Rattle.std.specs.Prelude.{◌≡◌, ◌+◌, ◌-◌, ◌<◌, [], ◌∷◌, ◌++◌, length, replicate, MatchOption};

use head::NUMBERS;
use host::shawltide_lookup;
use lists::line::Line;

// How many numbers a head is.
pub const HEAD: usize = NUMBERS;

// The kind of the heads here, as the calls for hosts take it: by its number.
pub const PLAIN: u64 = 0;

// An index, as the calls for hosts take it.
#[derive(Clone, Copy)]
pub struct Index<'a> {
    pub head: &'a [u64],
    pub words: &'a [u64],
    pub samples: &'a [u64],
}

impl Index<'_> {
    // The answer to one lookup.
    fn answer(self, id: u64) -> u64 {
        let mut place = [0; 2];
        shawltide_lookup(self.head, self.words, self.samples, id, &mut place)
    }

    // Whether the lookup of each id gives its answer.
    pub fn are_found(self, ids: &[u64], answers: &[u64]) -> bool {
        ids.iter()
            .map(|id| self.answer(*id))
            .eq(answers.iter().copied())
    }
}

// id, answer, how many ids, how many levels, how many words, how many samples, level sizes, words, samples
pub fn lookup(line: Line<'_>) -> bool {
    let levels = line.many(3);
    let Some(head) = head(line.number(2), line.part(6, levels)) else {
        return false;
    };
    let words = 6 + levels;
    let samples = words + line.many(4);
    let index = Index {
        head: &head,
        words: line.past(words),
        samples: line.past(samples),
    };
    line.len() == samples + line.many(5) && index.answer(line.number(0)) == line.number(1)
}

// The head of the plain kind with so many ids and these level sizes: kind, id count, level count and sizes, and 0 past them; none, where it has no room for them.
pub fn head(ids: u64, sizes: &[u64]) -> Option<[u64; HEAD]>
    ensures { MatchOption result (HEAD < 3 + length sizes.now)
        (λ numbers. numbers ≡ (PLAIN ∷ ids ∷ length sizes.now ∷ []) ++ sizes.now
        ++ replicate (HEAD - (3 + length sizes.now)) 0) }
{
    if sizes.len() > HEAD - 3 {
        return None;
    }
    let mut head = [0; HEAD];
    head[0] = PLAIN;
    head[1] = ids;
    head[2] = sizes.len() as u64;
    head[3..3 + sizes.len()].copy_from_slice(sizes);
    Some(head)
}
