// One bit, or some words, of words that are there: bit b is bit b mod 64 of word b / 64. What a step asks, its callers have proved.
#![tactic(auto)]

ghost use Rattle.std.specs.Prelude.{◌≡◌, ◌*◌, ◌/◌, ◌^◌, ◌≤◌, ◌<◌, ◌++◌, length, drop, replicate};
ghost use Rattle.bounds.specs.Bounds.{max_bits};
ghost use Rattle.laws.specs.Counting.{rank};
ghost use Rattle.laws.specs.Bits.{words_for, has, with_bit, without_bit};
ghost use Rattle.words.specs.Steps.{Step};

// The words that so many bits take.
pub fn u64s(bits: u64) -> u64
    requires { bits ≤ max_bits }
    ensures { result ≡ words_for bits }
{
    bits.div_ceil(64)
}

// Whether the bit is set.
pub fn has_bit(words: &[u64], bit: u64) -> bool
    requires { bit / 64 < length words.now }
    ensures { result ≡ has words.now bit }
{
    (words[(bit / 64) as usize] >> (bit % 64)) % 2 == 1
}

// Sets the bit; whether it was set before.
pub fn add_bit(words: &mut [u64], bit: u64) -> bool
    requires { bit / 64 < length words.old }
    ensures { Step words.old bit (with_bit words.old bit) result words.new }
{
    let was = has_bit(words, bit);
    if !was {
        words[(bit / 64) as usize] += 1 << (bit % 64);
    }
    was
}

// Clears the bit; whether it was set before.
pub fn drop_bit(words: &mut [u64], bit: u64) -> bool
    requires { bit / 64 < length words.old }
    ensures { Step words.old bit (without_bit words.old bit) result words.new }
{
    let was = has_bit(words, bit);
    if was {
        words[(bit / 64) as usize] -= 1 << (bit % 64);
    }
    was
}

// How many bits of the words are set.
pub fn count_ones(words: &[u64]) -> u64
    requires { 64 * length words.now < 2 ^ 64 }
    ensures { result ≡ rank (has words.now) (64 * length words.now) }
{
    words.iter().map(|word| word.count_ones() as u64).sum()
}

// Puts one word into the first n places.
pub fn fill(words: &mut [u64], n: usize, word: u64)
    requires { n ≤ length words.old }
    ensures { words.new ≡ replicate n word ++ drop n words.old }
{
    words[..n].fill(word);
}
