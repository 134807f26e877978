// The calls on an index, for C: those of `host`.
ghost use Rattle.std.specs.Prelude.{◌≡◌};
ghost use Rattle.run.specs.Stores.{stores};
ghost use Rattle.rows.specs.Rows.{row_stores};
ghost use Rattle.host.specs.Flat.{seen, flat_built, flat_build, flat_lookup, flat_rows};

// Builds an index of the ids by a kind of hash: 0, or the refusal. `out` gets the value that refusal 5 or 6 carries, else 0, and the head.
#[unsafe(no_mangle)]
pub extern "C" fn shawltide_build(
    kind: u64,
    gamma: f64,
    ids: &[u64],
    words: &mut [u64],
    samples: &mut [u64],
    collide: &mut [u64],
    rest: &mut [u64],
    out: &mut [u64],
) -> u64
    ensures { seen result (flat_built (stores words.new samples.new collide.new rest.new) out.new)
        ≡ flat_build kind gamma ids.now (stores words.old samples.old collide.old rest.old) out.old }
{
    host::shawltide_build(kind, gamma, ids, words, samples, collide, rest, out)
}

// The id's row, none, or the refusal. `place` gets the level and the position of a row.
#[unsafe(no_mangle)]
pub extern "C" fn shawltide_lookup(
    head: &[u64],
    words: &[u64],
    samples: &[u64],
    id: u64,
    place: &mut [u64],
) -> u64
    ensures { seen result place.new
        ≡ flat_lookup head.now words.now samples.now id place.old }
{
    host::shawltide_lookup(head, words, samples, id, place)
}

// Writes at each row the id that lookup sends there: 0, or the refusal.
#[unsafe(no_mangle)]
pub extern "C" fn shawltide_rows(
    head: &[u64],
    words: &[u64],
    samples: &[u64],
    ids: &[u64],
    rows: &mut [u64],
    marks: &mut [u64],
) -> u64
    ensures { seen result (row_stores rows.new marks.new)
        ≡ flat_rows head.now words.now samples.now ids.now rows.old marks.old }
{
    host::shawltide_rows(head, words, samples, ids, rows, marks)
}
