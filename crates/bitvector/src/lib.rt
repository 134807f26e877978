// Sets of numbers below a capacity, in words that the caller lends: bit b is bit b mod 64 of word b / 64. Each call checks what it is given. Capacity and words are
// two parameters, as in the calls for C, which lend both anew each time.
#![tactic(auto)]

ghost use Rattle.std.specs.Prelude.{◌≡◌};
ghost use Rattle.refusal.specs.Answers.{untouched, made, said, counted};
ghost use Rattle.bitvector.specs.Calls.{new_call, ones_call, is_empty_call, len_call};
ghost use Rattle.bitvector.specs.Calls.{contains_call, insert_call, remove_call, insert_all_call, eq_left_call, members_call};

use crate::checks::{check_bit, check_room, check_sound};
use crate::steps::{has_at_most, is_clear, join, list_bits, needed, same_left};
use refusal::Refusal;
use words::{add_bit, count_ones, drop_bit, fill, has_bit, u64s};

mod checks;
mod steps;

// The empty set.
pub fn new(capacity: u64, words: &mut [u64]) -> Result<(), Refusal>
    ensures { made result words.new ≡ new_call capacity words.old }
{
    check_room(capacity, words)?;
    fill(words, u64s(capacity) as usize, 0);
    Ok(())
}

// The set of every number below the capacity.
pub fn ones(capacity: u64, words: &mut [u64]) -> Result<(), Refusal>
    ensures { made result words.new ≡ ones_call capacity words.old }
{
    check_room(capacity, words)?;
    let whole = (capacity / 64) as usize;
    fill(words, whole, !0);
    let part = capacity % 64;
    if part > 0 {
        words[whole] = (1 << part) - 1;
    }
    Ok(())
}

// Whether the set has no number.
pub fn is_empty(capacity: u64, words: &[u64]) -> Result<bool, Refusal>
    ensures { said result untouched ≡ is_empty_call capacity words.now }
{
    check_sound(capacity, words)?;
    Ok(is_clear(needed(capacity, words)))
}

// How many numbers the set has.
pub fn len(capacity: u64, words: &[u64]) -> Result<u64, Refusal>
    ensures { counted result untouched ≡ len_call capacity words.now }
{
    check_sound(capacity, words)?;
    Ok(count_ones(needed(capacity, words)))
}

// Whether the bit is in the set.
pub fn contains(capacity: u64, words: &[u64], bit: u64) -> Result<bool, Refusal>
    ensures { said result untouched ≡ contains_call capacity words.now bit }
{
    check_sound(capacity, words)?;
    check_bit(capacity, bit)?;
    Ok(has_bit(words, bit))
}

// Whether the bit is new.
pub fn insert(capacity: u64, words: &mut [u64], bit: u64) -> Result<bool, Refusal>
    ensures { said result words.new ≡ insert_call capacity words.old bit }
{
    check_sound(capacity, words)?;
    check_bit(capacity, bit)?;
    Ok(!add_bit(words, bit))
}

// Whether the bit was there.
pub fn remove(capacity: u64, words: &mut [u64], bit: u64) -> Result<bool, Refusal>
    ensures { said result words.new ≡ remove_call capacity words.old bit }
{
    check_sound(capacity, words)?;
    check_bit(capacity, bit)?;
    Ok(drop_bit(words, bit))
}

// Puts the numbers of the other set in; whether the set has changed.
pub fn insert_all(
    capacity: u64,
    words: &mut [u64],
    other_capacity: u64,
    other: &[u64],
) -> Result<bool, Refusal>
    ensures { said result words.new ≡ insert_all_call capacity words.old other_capacity other.now }
{
    check_sound(capacity, words)?;
    check_sound(other_capacity, other)?;
    if capacity != other_capacity {
        return Err(Refusal::UnfitSet);
    }
    let other = needed(capacity, other);
    Ok(join(&mut words[..other.len()], other))
}

// Whether the two sets have the same numbers below the bit.
pub fn eq_left(
    capacity: u64,
    words: &[u64],
    other_capacity: u64,
    other: &[u64],
    bit: u64,
) -> Result<bool, Refusal>
    ensures { said result untouched ≡ eq_left_call capacity words.now other_capacity other.now bit }
{
    check_sound(capacity, words)?;
    check_sound(other_capacity, other)?;
    if bit > capacity || bit > other_capacity {
        return Err(Refusal::BitOutside);
    }
    Ok(same_left(words, other, bit))
}

// The numbers of the set, rising, to the front of `out`; how many they are.
pub fn members(capacity: u64, words: &[u64], out: &mut [u64]) -> Result<u64, Refusal>
    ensures { counted result out.new ≡ members_call capacity words.now out.old }
{
    check_sound(capacity, words)?;
    let words = needed(capacity, words);
    if !has_at_most(words, out.len()) {
        return Err(Refusal::ShortOutput);
    }
    Ok(list_bits(words, out) as u64)
}
