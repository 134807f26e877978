// What the calls check first. Beside the answer each says what is known where it is no refusal.
ghost use Rattle.std.specs.Prelude.{◌≡◌, ◌≤◌, ◌<◌, true, ltb, length, Ok, Err, OnOk};
ghost use Rattle.bounds.specs.Bounds.{max_bits};
ghost use Rattle.laws.specs.Bits.{words_for};
ghost use Rattle.refusal.specs.Answers.{check};
ghost use Rattle.refusal.specs.declared.Refusal.TheVariants.{BitOutside, UnfitSet};
ghost use Rattle.bitvector.specs.Calls.{roomy, sound};

use bounds::MAX_BITS;
use refusal::Refusal;
use words::u64s;

// The store has the words that a capacity needs, and the capacity is within the bound.
pub(crate) fn check_room(capacity: u64, words: &[u64]) -> Result<(), Refusal>
    ensures answer { result ≡ check (roomy capacity words.now) UnfitSet Err (Ok tt) }
    ensures roomy { OnOk result (roomy capacity words.now ≡ true) }
    ensures room { OnOk result ((capacity ≤ max_bits) × (words_for capacity ≤ length words.now)) }
{
    if capacity > MAX_BITS || u64s(capacity) > words.len() as u64 {
        return Err(Refusal::UnfitSet);
    }
    Ok(())
}

// The same, and the last of those words has no bit at or past the capacity.
pub(crate) fn check_sound(capacity: u64, words: &[u64]) -> Result<(), Refusal>
    ensures answer { result ≡ check (sound capacity words.now) UnfitSet Err (Ok tt) }
    ensures sound { OnOk result (sound capacity words.now ≡ true) }
    ensures room { OnOk result ((capacity ≤ max_bits) × (words_for capacity ≤ length words.now)) }
{
    check_room(capacity, words)?;
    let past = capacity % 64;
    if past > 0 && words[(capacity / 64) as usize] >> past != 0 {
        return Err(Refusal::UnfitSet);
    }
    Ok(())
}

// The bit is below the capacity.
pub(crate) fn check_bit(capacity: u64, bit: u64) -> Result<(), Refusal>
    ensures answer { result ≡ check (ltb bit capacity) BitOutside Err (Ok tt) }
    ensures below { OnOk result (bit < capacity) }
{
    if bit >= capacity {
        return Err(Refusal::BitOutside);
    }
    Ok(())
}
