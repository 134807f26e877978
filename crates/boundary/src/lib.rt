// Each call for hosts, called by the position of its arguments, with the promise of the call in the names of this file: were two parameters of one type
// swapped in the call's signature, its own promise would move with them, and the promise here would no longer hold.
#![tactic(auto)]

ghost use Rattle.std.specs.Prelude.{◌≡◌};
ghost use Rattle.refusal.specs.Answers.{untouched};
ghost use Rattle.bitvector.specs.Calls.{new_call, ones_call, is_empty_call, len_call, contains_call, insert_call, remove_call, insert_all_call, eq_left_call, members_call};
ghost use Rattle.run.specs.Stores.{stores};
ghost use Rattle.rows.specs.Rows.{row_stores};
ghost use Rattle.host.specs.Flat.{seen, seen_of, flat_built, flat_build, flat_lookup, flat_rows, flat_loaded, flat_write, flat_read};

fn set_empty(capacity: u64, words: &mut [u64]) -> u64
    ensures { seen result words.new ≡ seen_of (new_call capacity words.old) }
{
    host::shawltide_set_empty(capacity, words)
}

fn set_ones(capacity: u64, words: &mut [u64]) -> u64
    ensures { seen result words.new ≡ seen_of (ones_call capacity words.old) }
{
    host::shawltide_set_ones(capacity, words)
}

fn set_is_empty(capacity: u64, words: &[u64]) -> u64
    ensures { seen result untouched ≡ seen_of (is_empty_call capacity words.now) }
{
    host::shawltide_set_is_empty(capacity, words)
}

fn set_len(capacity: u64, words: &[u64]) -> u64
    ensures { seen result untouched ≡ seen_of (len_call capacity words.now) }
{
    host::shawltide_set_len(capacity, words)
}

fn set_contains(capacity: u64, words: &[u64], bit: u64) -> u64
    ensures { seen result untouched ≡ seen_of (contains_call capacity words.now bit) }
{
    host::shawltide_set_contains(capacity, words, bit)
}

fn set_insert(capacity: u64, words: &mut [u64], bit: u64) -> u64
    ensures { seen result words.new ≡ seen_of (insert_call capacity words.old bit) }
{
    host::shawltide_set_insert(capacity, words, bit)
}

fn set_remove(capacity: u64, words: &mut [u64], bit: u64) -> u64
    ensures { seen result words.new ≡ seen_of (remove_call capacity words.old bit) }
{
    host::shawltide_set_remove(capacity, words, bit)
}

fn set_insert_all(capacity: u64, words: &mut [u64], other_capacity: u64, other: &[u64]) -> u64
    ensures { seen result words.new ≡ seen_of (insert_all_call capacity words.old other_capacity other.now) }
{
    host::shawltide_set_insert_all(capacity, words, other_capacity, other)
}

fn set_eq_left(capacity: u64, words: &[u64], other_capacity: u64, other: &[u64], bit: u64) -> u64
    ensures { seen result untouched ≡ seen_of (eq_left_call capacity words.now other_capacity other.now bit) }
{
    host::shawltide_set_eq_left(capacity, words, other_capacity, other, bit)
}

fn set_members(capacity: u64, words: &[u64], out: &mut [u64]) -> u64
    ensures { seen result out.new ≡ seen_of (members_call capacity words.now out.old) }
{
    host::shawltide_set_members(capacity, words, out)
}

fn build(
    kind: u64,
    gamma: f64,
    ids: &[u64],
    words: &mut [u64],
    samples: &mut [u64],
    collide: &mut [u64],
    rest: &mut [u64],
    out: &mut [u64],
) -> u64
    ensures { seen result (flat_built (stores words.new samples.new collide.new rest.new) out.new)
        ≡ flat_build kind gamma ids.now (stores words.old samples.old collide.old rest.old) out.old }
{
    host::shawltide_build(kind, gamma, ids, words, samples, collide, rest, out)
}

fn lookup(head: &[u64], words: &[u64], samples: &[u64], id: u64, place: &mut [u64]) -> u64
    ensures { seen result place.new
        ≡ flat_lookup head.now words.now samples.now id place.old }
{
    host::shawltide_lookup(head, words, samples, id, place)
}

fn rows(
    head: &[u64],
    words: &[u64],
    samples: &[u64],
    ids: &[u64],
    rows: &mut [u64],
    marks: &mut [u64],
) -> u64
    ensures { seen result (row_stores rows.new marks.new)
        ≡ flat_rows head.now words.now samples.now ids.now rows.old marks.old }
{
    host::shawltide_rows(head, words, samples, ids, rows, marks)
}

fn image_write(head: &[u64], words: &[u64], samples: &[u64], image: &mut [u8]) -> u64
    ensures { seen result image.new ≡ flat_write head.now words.now samples.now image.old }
{
    host::shawltide_image_write(head, words, samples, image)
}

fn image_read(image: &[u8], words: &mut [u64], samples: &mut [u64], out: &mut [u64]) -> u64
    ensures { seen result (flat_loaded words.new samples.new out.new)
        ≡ flat_read image.now words.old samples.old out.old }
{
    host::shawltide_image_read(image, words, samples, out)
}
