// Cases of samples and ranks.
use lists::line::Line;

// No level of a line has more words.
const MOST_WORDS: usize = 400;

// set bits in earlier levels, set bits with this level, how many words, words, samples
pub fn samples(line: Line<'_>, store: &mut [u64]) -> bool {
    let before = line.number(0);
    if before > bounds::MAX_IDS {
        return false;
    }
    let words = line.part(3, line.many(2));
    let n = words.len();
    if n > MOST_WORDS {
        return false;
    }
    let sampled = sizes::samples(n as u64) as usize;
    if sampled > store.len() {
        return false;
    }
    let after = ranks::sample_level(words, before, store);
    line.len() == 3 + n + sampled
        && after == line.number(1)
        && line.is_left(store, 0, line.part(3 + n, sampled))
}

// position, rank, how many words, words, samples
pub fn rank(line: Line<'_>) -> bool {
    let words = line.part(3, line.many(2));
    let n = words.len();
    if n > MOST_WORDS {
        return false;
    }
    let position = line.number(0);
    if position >= 64 * n as u64 {
        return false;
    }
    let sample = line.number(3 + n + (position / 512) as usize);
    let rank = sample.wrapping_add(ranks::ones_from(words, position));
    line.len() == 3 + n + sizes::samples(n as u64) as usize && rank == line.number(1)
}
