// Cases of whole builds, and of lookups in what was built: what the numbers of a line are, and whether the calls for hosts answer as it says.
#![tactic(auto)]

ghost use Rattle.std.specs.Prelude.{◌≤◌, ◌*◌, ◌+◌};
ghost use Rattle.lists.specs.Lines.{most};

use host::shawltide_build;
use lists::left::is_just;
use lists::line::Line;
use lists::real::real;
use lookup_cases::{HEAD, Index, PLAIN, head};

// No line has more ids.
const MOST_IDS: usize = 3000;

// No index of a line has more words or samples, and no run that is refused takes more.
const MOST_WORDS: usize = 512;

const MOST_SAMPLES: usize = 128;

// A value and a head.
const OUT: usize = HEAD + 1;

// What the stores hold before a build.
const USED: u64 = 7;

// The calls for hosts answer numbers. That of a build that is done.
const DONE: u64 = 0;

// The answer of refusal 6, which gives how many ids remain.
const IDS_REMAIN: u64 = u64::MAX - 6;

// What a build left in the stores that it was lent: a value, an index, and what only the build uses. Views of stores, so that these are not copied.
#[derive(Clone, Copy)]
struct Left<'a> {
    value: u64,
    index: Index<'a>,
    collide: &'a [u64],
    rest: &'a [u64],
}

// Of a build that is refused: gamma's bits, how many ids, 0, how many remain, the ids.
// Of any other: gamma's bits, how many ids, how many levels, how many lookups, how many words, how many samples, the ids, and the parts of `is_index`.
pub fn build(line: Line<'_>) -> bool {
    let mut words = [USED; MOST_WORDS];
    let mut samples = [USED; MOST_SAMPLES];
    let mut collide = [USED; MOST_WORDS];
    let mut rest = [USED; MOST_IDS];
    let mut out = [USED; OUT];
    let answer = shawltide_build(
        PLAIN,
        real(line.number(0)),
        ids(line),
        &mut words,
        &mut samples,
        &mut collide,
        &mut rest,
        &mut out,
    );
    let left = Left {
        value: out[0],
        index: Index {
            head: &out[1..],
            words: &words,
            samples: &samples,
        },
        collide: &collide,
        rest: &rest,
    };
    if !left.is_swept() {
        return false;
    }
    if line.number(2) == 0 {
        answer == IDS_REMAIN && left.is_refused(line)
    } else {
        answer == DONE && left.is_index(line)
    }
}

impl Left<'_> {
    // Whether nothing is left of what only the build uses.
    fn is_swept(self) -> bool {
        is_just(self.collide, &[]) && is_just(self.rest, &[])
    }

    // Whether as many ids remain as the line says, and nothing else is left: no head, no word, no sample.
    fn is_refused(self, line: Line<'_>) -> bool {
        line.len() == 4 + line.many(1)
            && self.value == line.number(3)
            && is_just(self.index.head, &[])
            && is_just(self.index.words, &[])
            && is_just(self.index.samples, &[])
    }

    // Whether a build left the index of the line, which has after the ids: level sizes, words, samples, the row of each id, the ids looked up, the answer of each.
    fn is_index(self, line: Line<'_>) -> bool {
        let levels_at = 6 + line.many(1);
        let words_at = levels_at + line.many(2);
        let samples_at = words_at + line.many(4);
        let rows_at = samples_at + line.many(5);
        let sizes = line.part(levels_at, line.many(2));
        self.value == 0
            && head(line.number(1), sizes).is_some_and(|head| self.index.head == head.as_slice())
            && is_just(self.index.words, line.part(words_at, line.many(4)))
            && is_just(self.index.samples, line.part(samples_at, line.many(5)))
            && are_rows(line, rows_at, self.index)
    }
}

// The ids of a line.
fn ids(line: Line<'_>) -> &[u64] {
    let at = if line.number(2) == 0 { 4 } else { 6 };
    line.part(at, line.many(1))
}

// Whether the lookups of the line give what it says from this place on: of the ids their rows, and of the ids looked up the answers.
fn are_rows(line: Line<'_>, at: usize, index: Index<'_>) -> bool
    requires { at ≤ 4 * most + 6 }
{
    let n = line.many(1);
    let lookups = line.many(3);
    let asked_at = at + n;
    let answers_at = asked_at + lookups;
    line.len() == answers_at + lookups
        && index.are_found(ids(line), line.part(at, n))
        && index.are_found(line.part(asked_at, lookups), line.part(answers_at, lookups))
}
