// Builds, lookups, row lists and writes: of the known kind, of kinds that are not known, and of kind 1 beside what another refusal asks.
use build_edges::{Build, ONE};
use lookup_edges::Stored;
use std::io;
use write_edges::{OF_9, Write};

// The kind that is known, and some that are not.
const KINDS: [(&str, u64); 4] = [("0", 0), ("1", 1), ("2", 2), ("2^64 - 1", u64::MAX)];

pub(crate) fn builds(rt: &impl Print) -> io::Result<()> {
    for (name, kind) in KINDS {
        Build { kind, ..ONE }.show(rt, format_args!("kind {name}"))?;
    }
    // 16 before 1, 2, 4 and 5.
    let kind_1 = Build { kind: 1, ..ONE };
    Build {
        gamma: 1.01,
        ..kind_1
    }
    .show(rt, "kind 1, gamma 1.01")?;
    Build {
        gamma: 17.0,
        ..kind_1
    }
    .show(rt, "kind 1, gamma 17")?;
    Build {
        collide: 3,
        rest: 0,
        ..kind_1
    }
    .show(rt, "kind 1, short work stores")?;
    Build { words: 3, ..kind_1 }.show(rt, "kind 1, 3 words")
}

// The index of 9, by a head of this kind and so many levels, with this sample.
fn index(kind: u64, levels: u64, samples: &[u64]) -> Stored<'_> {
    let of_9 = Write {
        kind,
        levels,
        ..OF_9
    };
    Stored {
        head: of_9.head(),
        words: &[0, 0, 4, 0],
        samples,
    }
}

pub(crate) fn lookups(rt: &impl Print) -> io::Result<()> {
    for (name, kind) in KINDS {
        index(kind, 1, &[0]).lookup(rt, format_args!("9, kind {name}"), 9)?;
    }
    // 16 before 7 and 8.
    index(1, 0, &[0]).lookup(rt, "9, kind 1, no level", 9)?;
    index(1, 1, &[1]).lookup(rt, "9, kind 1, sample 1", 9)
}

// Row lists, in stores that hold 7 everywhere.
pub(crate) fn lists(rt: &impl Print) -> io::Result<()> {
    for (name, kind) in KINDS {
        index(kind, 1, &[0]).rows(rt, format_args!("kind {name}"), &[9], 3, 2)?;
    }
    // 16 before 7, 11 and 12.
    index(1, 0, &[0]).rows(rt, "kind 1, no level", &[9], 3, 2)?;
    index(1, 1, &[0]).rows(rt, "kind 1, no row", &[9], 0, 2)?;
    index(1, 1, &[0]).rows(rt, "kind 1, a foreign id", &[11], 3, 2)
}

pub(crate) fn writes(rt: &impl Print) -> io::Result<()> {
    for (_, kind) in KINDS {
        Write { kind, ..OF_9 }.show(rt)?;
    }
    // 16 before 7, 15 and 11.
    let kind_1 = Write { kind: 1, ..OF_9 };
    Write {
        levels: 0,
        ..kind_1
    }
    .show(rt)?;
    Write {
        size_1: 1,
        ..kind_1
    }
    .show(rt)?;
    Write {
        bytes: 1023,
        ..kind_1
    }
    .show(rt)
}
