// Cases of one level.
use level::Level;
use lists::left::{after, is_just};
use lists::line::Line;
use mixer::Kind;

// No level of a line has more bits.
const LARGEST: u64 = 1024;

// More words than such a level has.
const WORDS: usize = 32;

// level, size, how many ids, how many go on, the ids, words, collide's words, those that go on
pub fn place(line: Line<'_>, store: &mut [u64]) -> bool {
    let size = line.number(1);
    if !(1..=LARGEST).contains(&size) {
        return false;
    }
    let need = words::u64s(size) as usize;
    let ids = line.many(2);
    let Some(rest) = after(store, 4).get_mut(..ids) else {
        return false;
    };
    let mut words = [0; WORDS];
    let mut collide = [0; WORDS];
    let level = Level {
        kind: Kind::Plain,
        number: line.number(0),
        size,
    };
    let kept = level::place(level, rest, &mut words, &mut collide);
    let on = line.many(3);
    let at = 4 + ids;
    line.len() == at + 2 * need + on
        && kept == on
        && is_just(&words, line.part(at, need))
        && is_just(&collide, line.part(at + need, need))
        && line.is_left(store, 4, line.part(at + 2 * need, on))
}
