// Row lists of the index of 9 and 10, in stores that hold 7 everywhere.
use build_edges::Small;
use head::Head;
use lookup_edges::Stored;
use std::io;

pub(crate) fn lists(rt: &impl Print) -> io::Result<()> {
    let built = Small::build(2.0, &[9, 10]);
    let index = Stored::of(&built);
    let no_level = Stored {
        head: Head {
            levels: 0,
            ..index.head
        },
        ..index
    };
    index.rows(rt, "9 and 10", &[9, 10], 3, 2)?;
    index.rows(rt, "10 and 9", &[10, 9], 3, 2)?;
    no_level.rows(rt, "no level", &[9], 0, 0)?;
    index.rows(rt, "1 row", &[9], 1, 2)?;
    index.rows(rt, "no mark", &[9], 3, 0)?;
    index.rows(rt, "9 alone", &[9], 3, 2)?;
    index.rows(rt, "9 and a foreign id", &[9, 11], 3, 2)?;
    index.rows(rt, "9 and 9", &[9, 9], 3, 2)
}
