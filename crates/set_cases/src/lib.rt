// Cases of the word set: what the numbers of a line are, and whether a call answers as it says. `store` is a copy of the line. A call that writes is lent a part
// of it, which is longer than the call needs: what is left there is compared too.
#![tactic(auto)]

ghost use Rattle.std.specs.Prelude.{◌≤◌};

use host::{
    shawltide_set_contains, shawltide_set_empty, shawltide_set_eq_left, shawltide_set_insert,
    shawltide_set_insert_all, shawltide_set_is_empty, shawltide_set_len, shawltide_set_members,
    shawltide_set_ones, shawltide_set_remove,
};
use lists::left::after;
use lists::line::Line;

// No set of a line has a larger capacity.
const LARGEST: u64 = 4096;

// The words of a set of this capacity; more than any set of a line has, where it is too large.
fn words(capacity: u64) -> usize
    ensures { result ≤ 65 }
{
    words::u64s(capacity.min(LARGEST + 1)) as usize
}

// Whether a call that reads a set, whose words start at this place of the line, gave the answer that stands before them.
fn is_read(line: Line<'_>, at: usize, answer: u64) -> bool
    requires { (1 ≤ at) × (at ≤ 4) }
{
    line.len() == at + words(line.number(0)) && answer == line.number(at - 1)
}

// Whether a call that writes to a set gave that answer, and left the words that come after those before the call.
fn is_written(line: Line<'_>, store: &[u64], at: usize, answer: u64) -> bool
    requires { (1 ≤ at) × (at ≤ 4) }
{
    let need = words(line.number(0));
    line.len() == at + 2 * need
        && answer == line.number(at - 1)
        && line.is_left(store, at, line.part(at + need, need))
}

// capacity, done, words before, words after
pub fn new(line: Line<'_>, store: &mut [u64]) -> bool {
    let answer = shawltide_set_empty(line.number(0), after(store, 2));
    is_written(line, store, 2, answer)
}

// capacity, done, words before, words after
pub fn ones(line: Line<'_>, store: &mut [u64]) -> bool {
    let answer = shawltide_set_ones(line.number(0), after(store, 2));
    is_written(line, store, 2, answer)
}

// capacity, answer, words
pub fn is_empty(line: Line<'_>) -> bool {
    let answer = shawltide_set_is_empty(line.number(0), line.past(2));
    is_read(line, 2, answer)
}

// capacity, answer, words
pub fn len(line: Line<'_>) -> bool {
    let answer = shawltide_set_len(line.number(0), line.past(2));
    is_read(line, 2, answer)
}

// capacity, bit, answer, words
pub fn contains(line: Line<'_>) -> bool {
    let answer = shawltide_set_contains(line.number(0), line.past(3), line.number(1));
    is_read(line, 3, answer)
}

// capacity, bit, answer, words before, words after
pub fn insert(line: Line<'_>, store: &mut [u64]) -> bool {
    let answer = shawltide_set_insert(line.number(0), after(store, 3), line.number(1));
    is_written(line, store, 3, answer)
}

// capacity, bit, answer, words before, words after
pub fn remove(line: Line<'_>, store: &mut [u64]) -> bool {
    let answer = shawltide_set_remove(line.number(0), after(store, 3), line.number(1));
    is_written(line, store, 3, answer)
}

// capacity, answer, words before, the other's words, words after
pub fn insert_all(line: Line<'_>, store: &mut [u64]) -> bool {
    let capacity = line.number(0);
    let need = words(capacity);
    let other = line.past(2 + need);
    let answer = shawltide_set_insert_all(capacity, after(store, 2), capacity, other);
    line.len() == 2 + 3 * need
        && answer == line.number(1)
        && line.is_left(store, 2, line.part(2 + 2 * need, need))
}

// capacity, the other's capacity, bit, answer, words, the other's words
pub fn eq_left(line: Line<'_>) -> bool {
    let capacity = line.number(0);
    let other = line.number(1);
    let need = words(capacity);
    let answer = shawltide_set_eq_left(
        capacity,
        line.past(4),
        other,
        line.past(4 + need),
        line.number(2),
    );
    line.len() == 4 + need + words(other) && answer == line.number(3)
}

// capacity, how many, words, members
pub fn members(line: Line<'_>, store: &mut [u64]) -> bool {
    let capacity = line.number(0);
    let need = words(capacity);
    let size = line.many(1);
    let answer = shawltide_set_members(capacity, line.past(2), store);
    line.len() == 2 + need + size
        && answer == line.number(1)
        && line.is_left(store, 0, line.part(2 + need, size))
}
