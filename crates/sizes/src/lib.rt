// The size of a level: gamma's two tests, how many bits a level has for the ids that remain, and how many samples its words take.
#![tactic(auto)]

ghost use Rattle.std.specs.Prelude.{◌≡◌, ◌≤◌};
ghost use Rattle.bounds.specs.Bounds.{max_ids, max_bits};
ghost use Rattle.laws.specs.Bits.{words_for};
ghost use Rattle.sizes.specs.Gamma.{above_min, above_max, Allowed};
ghost use Rattle.sizes.specs.Sizes.{size_for, samples_for};

use bounds::{MIN_BITS, SAMPLE_WORDS};

// A gamma has to be above the one, and not above the other.
const MIN_GAMMA: f64 = 1.01;

const MAX_GAMMA: f64 = 16.0;

// 2^52: the leading one of an f64's 53 binary digits. The bits of an f64 leave it out; they hold the other 52, and above these the exponent.
const LEADING: u64 = 0x10_0000_0000_0000;

// Whether gamma is above 1.01. NaN is not.
pub fn above_min(gamma: f64) -> bool
    ensures { result ≡ above_min gamma }
{
    gamma > MIN_GAMMA
}

// Whether gamma is above 16.
pub fn above_max(gamma: f64) -> bool
    ensures { result ≡ above_max gamma }
{
    gamma > MAX_GAMMA
}

// How many bits a level has for so many remaining ids: the whole part of their product with gamma, or 255 where that is less.
pub fn size(gamma: f64, ids: u64) -> u64
    requires gamma_allowed { Allowed gamma }
    requires ids_bounded { ids ≤ max_ids }
    ensures { result ≡ size_for gamma ids }
{
    if ids == 0 {
        return MIN_BITS;
    }
    // The product is from 1 to below 2^53, and so significand * 2^(exponent - 1075), with an exponent from 1023 to 1075. Its whole part is taken from
    // these bits and not by a cast, as the form of a size in docs/DECISIONS.md asks.
    let bits = (gamma * ids as f64).to_bits();
    let exponent = bits / LEADING;
    let significand = bits % LEADING + LEADING;
    let whole = significand >> (1075 - exponent);
    whole.max(MIN_BITS)
}

// How many samples a level of so many words has: one for every 8 words, and one for those left over.
pub fn samples(words: u64) -> u64
    requires { words ≤ words_for max_bits }
    ensures { result ≡ samples_for words }
{
    words.div_ceil(SAMPLE_WORDS)
}
