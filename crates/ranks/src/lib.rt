// Ranks: a level's samples, the ones below a position from its sample on, and a level's part of a store.
#![tactic(auto)]

ghost use Rattle.std.specs.Prelude.{◌≡◌, ◌+◌, ◌*◌, ◌^◌, ◌≤◌, ◌<◌, length, take, drop};
ghost use Rattle.sizes.specs.Sizes.{samples_for};
ghost use Rattle.ranks.specs.Ranks.{ones_from};
ghost use Rattle.ranks.specs.Sampling.{Sampled};

use words::count_ones;

// There is a sample for every so many words.
const STRIDE: usize = bounds::SAMPLE_WORDS as usize;

// The n words or samples from a place on: a level's part of a store in which the levels lie one after another.
pub fn part(store: &[u64], at: usize, n: usize) -> &[u64]
    requires { at + n ≤ length store.now }
    ensures { result.now ≡ take n (drop at store.now) }
{
    &store[at..at + n]
}

// Writes a level's samples to the front of the store, from its words and the number of set bits before it; the set bits up to and with this level. Samples go by
// their number: of places lent by `iter_mut` under a `zip` no proof knows what is written.
pub fn sample_level(words: &[u64], before: u64, samples: &mut [u64]) -> u64
    requires samples_fit { samples_for (length words.now) ≤ length samples.old }
    requires ones_fit { before + 64 * length words.now < 2 ^ 64 }
    ensures { Sampled before words.now samples.old result samples.new }
{
    let mut ones = before;
    for (j, group) in words.chunks(STRIDE).enumerate() {
        samples[j] = ones;
        ones += count_ones(group);
    }
    ones
}

// The ones below a position, from the first word of its sample on. The position may also be the end of the words. Words go by their number: summed as a part, by
// `count_ones`, a lookup takes a tenth longer.
pub fn ones_from(words: &[u64], position: u64) -> u64
    requires { position ≤ 64 * length words.now }
    ensures { result ≡ ones_from words.now position }
{
    let at = (position / 64) as usize;
    let first = at / STRIDE * STRIDE;
    let mut ones: u64 = 0;
    for i in first..at {
        ones += words[i].count_ones() as u64;
    }
    let below = position % 64;
    if below > 0 {
        ones += (words[at] << (64 - below)).count_ones() as u64;
    }
    ones
}
