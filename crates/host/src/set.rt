// The calls on sets: those of `bitvector`, each with its answer as one number.
ghost use Rattle.std.specs.Prelude.{◌≡◌};
ghost use Rattle.bitvector.specs.Calls.{new_call, ones_call, is_empty_call, len_call, contains_call, insert_call, remove_call, insert_all_call, eq_left_call, members_call};
ghost use Rattle.refusal.specs.Answers.{untouched};
ghost use Rattle.host.specs.Flat.{seen, seen_of};

use crate::answer::number;

// The empty set.
pub fn shawltide_set_empty(capacity: u64, words: &mut [u64]) -> u64
    ensures { seen result words.new ≡ seen_of (new_call capacity words.old) }
{
    number(bitvector::new(capacity, words))
}

// The set of every number below the capacity.
pub fn shawltide_set_ones(capacity: u64, words: &mut [u64]) -> u64
    ensures { seen result words.new ≡ seen_of (ones_call capacity words.old) }
{
    number(bitvector::ones(capacity, words))
}

// 1 if the set has no number, else 0.
pub fn shawltide_set_is_empty(capacity: u64, words: &[u64]) -> u64
    ensures { seen result untouched ≡ seen_of (is_empty_call capacity words.now) }
{
    number(bitvector::is_empty(capacity, words))
}

// How many numbers the set has.
pub fn shawltide_set_len(capacity: u64, words: &[u64]) -> u64
    ensures { seen result untouched ≡ seen_of (len_call capacity words.now) }
{
    number(bitvector::len(capacity, words))
}

// 1 if the bit is in the set, else 0.
pub fn shawltide_set_contains(capacity: u64, words: &[u64], bit: u64) -> u64
    ensures { seen result untouched ≡ seen_of (contains_call capacity words.now bit) }
{
    number(bitvector::contains(capacity, words, bit))
}

// 1 if the bit is new, else 0.
pub fn shawltide_set_insert(capacity: u64, words: &mut [u64], bit: u64) -> u64
    ensures { seen result words.new ≡ seen_of (insert_call capacity words.old bit) }
{
    number(bitvector::insert(capacity, words, bit))
}

// 1 if the bit was there, else 0.
pub fn shawltide_set_remove(capacity: u64, words: &mut [u64], bit: u64) -> u64
    ensures { seen result words.new ≡ seen_of (remove_call capacity words.old bit) }
{
    number(bitvector::remove(capacity, words, bit))
}

// 1 if the set has changed, else 0.
pub fn shawltide_set_insert_all(
    capacity: u64,
    words: &mut [u64],
    other_capacity: u64,
    other: &[u64],
) -> u64
    ensures { seen result words.new ≡ seen_of (insert_all_call capacity words.old other_capacity other.now) }
{
    number(bitvector::insert_all(capacity, words, other_capacity, other))
}

// 1 if the two sets have the same numbers below the bit, else 0.
pub fn shawltide_set_eq_left(
    capacity: u64,
    words: &[u64],
    other_capacity: u64,
    other: &[u64],
    bit: u64,
) -> u64
    ensures { seen result untouched ≡ seen_of (eq_left_call capacity words.now other_capacity other.now bit) }
{
    number(bitvector::eq_left(capacity, words, other_capacity, other, bit))
}

// How many members are written to the front of `out`.
pub fn shawltide_set_members(capacity: u64, words: &[u64], out: &mut [u64]) -> u64
    ensures { seen result out.new ≡ seen_of (members_call capacity words.now out.old) }
{
    number(bitvector::members(capacity, words, out))
}
