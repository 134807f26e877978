// The steps of the calls, on words that are known to be there.
ghost use Rattle.std.specs.Prelude.{◌≡◌, ◌+◌, ◌*◌, ◌≤◌, eqb, leb, ltb, length, take};
ghost use Rattle.std.specs.Int.Count.{ones};
ghost use Rattle.bounds.specs.Bounds.{max_bits};
ghost use Rattle.laws.specs.Counting.{rank};
ghost use Rattle.laws.specs.Bits.{words_for, has};
ghost use Rattle.bitvector.specs.Sets.{same_below};
ghost use Rattle.bitvector.specs.Steps.{WordListed, PartListed, Front, Joined};

use words::{count_ones, u64s};

// So many words are passed over at once where none has a bit.
const GROUP: usize = 8;

// The words that a capacity needs, at the front of the store.
pub(crate) fn needed(capacity: u64, words: &[u64]) -> &[u64]
    requires { (capacity ≤ max_bits) × (words_for capacity ≤ length words.now) }
    ensures front { result.now ≡ take (words_for capacity) words.now }
    ensures count { length result.now ≡ words_for capacity }
{
    &words[..u64s(capacity) as usize]
}

// Whether no bit is set in the words. A `for`: where all are 0, `all` takes 1.25 times as long.
pub(crate) fn is_clear(words: &[u64]) -> bool
    ensures { result ≡ eqb (rank (has words.now) (64 * length words.now)) 0 }
{
    for word in words {
        if *word != 0 {
            return false;
        }
    }
    true
}

// Whether a bit is set in the words.
fn any_bit(words: &[u64]) -> bool
    ensures { result ≡ ltb 0 (rank (has words.now) (64 * length words.now)) }
{
    words.iter().fold(0, |all, word| all | *word) != 0
}

// How many bits are set in the words, of which many may be 0.
fn count_sparse(words: &[u64]) -> u64
    requires { length words.now ≤ words_for max_bits }
    ensures { result ≡ rank (has words.now) (64 * length words.now) }
{
    let (groups, rest) = words.as_chunks::<GROUP>();
    let mut count: u64 = 0;
    for group in groups {
        if any_bit(group) {
            count += count_ones(group);
        }
    }
    count + count_ones(rest)
}

// Whether at most so many bits are set in the words. They are counted only where there may be more.
pub(crate) fn has_at_most(words: &[u64], most: usize) -> bool
    requires { length words.now ≤ words_for max_bits }
    ensures { result ≡ leb (rank (has words.now) (64 * length words.now)) most }
{
    words.len() <= most / 64 || count_sparse(words) <= most as u64
}

// The word's set bits, counted from `base` on, rising, to `out` from `place` on; the place after them. A `while`: a word's bits have no iterator in the library.
fn list_word(word: u64, base: u64, out: &mut [u64], place: usize) -> usize
    requires { (base ≤ max_bits) × (place + ones word ≤ length out.old) }
    ensures { WordListed base word place out.old result out.new }
{
    let mut rest = word;
    let mut next = place;
    while rest != 0 {
        out[next] = base + rest.trailing_zeros() as u64;
        next += 1;
        rest &= rest - 1;
    }
    next
}

// The bits set in the words, counted from `base` on, rising, to `out` from `place` on; the place after them.
fn list_words(words: &[u64], base: u64, out: &mut [u64], place: usize) -> usize
    requires words_fit { base + 64 * length words.now ≤ max_bits }
    requires out_fits { place + rank (has words.now) (64 * length words.now) ≤ length out.old }
    ensures { PartListed words.now (length words.now) base place out.old result out.new }
{
    let mut next = place;
    for (i, word) in words.iter().enumerate() {
        next = list_word(*word, base + 64 * i as u64, out, next);
    }
    next
}

// The bits set in the words, of which many may be 0, rising, to the front of `out`; how many they are.
pub(crate) fn list_bits(words: &[u64], out: &mut [u64]) -> usize
    requires { (length words.now ≤ words_for max_bits) × (rank (has words.now) (64 * length words.now) ≤ length out.old) }
    ensures { Front words.now out.old (length words.now) result out.new }
{
    let (groups, rest) = words.as_chunks::<GROUP>();
    let mut next: usize = 0;
    for (g, group) in groups.iter().enumerate() {
        if any_bit(group) {
            next = list_words(group, 64 * (g * GROUP) as u64, out, next);
        }
    }
    list_words(rest, 64 * (groups.len() * GROUP) as u64, out, next)
}

// Puts the bits of `other` into `words`, word by word; whether one was new.
pub(crate) fn join(words: &mut [u64], other: &[u64]) -> bool
    requires { length words.old ≡ length other.now }
    ensures { Joined (length words.old) words.old other.now result words.new }
{
    let mut new = false;
    // Over `words.iter_mut().zip(other)` a proof knows nothing of what is written.
    for (i, word) in words.iter_mut().enumerate() {
        let joined = *word | other[i];
        new |= joined != *word;
        *word = joined;
    }
    new
}

// Whether the bits below `bit` are the same in both. Word by word, and not inlined: within a call the compiler doesn't align the loop, which then takes twice as
// long at every other place.
#[inline(never)]
pub(crate) fn same_left(words: &[u64], other: &[u64], bit: u64) -> bool
    requires { (words_for bit ≤ length words.now) × (words_for bit ≤ length other.now) }
    ensures { result ≡ same_below (has words.now) (has other.now) bit }
{
    let whole = (bit / 64) as usize;
    for i in 0..whole {
        if words[i] != other[i] {
            return false;
        }
    }
    let part = bit % 64;
    part == 0 || words[whole] << (64 - part) == other[whole] << (64 - part)
}
