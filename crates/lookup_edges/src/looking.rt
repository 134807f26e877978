// Lookups. In 255 bits the id 9 has position 130, 10 has 115 and 11 has 13.
use crate::Stored;
use build_edges::Small;
use std::io;

pub fn lookups(rt: &impl Print) -> io::Result<()> {
    let two = Small::build(2.0, &[9, 10]);
    let index = Stored::of(&two);
    index.lookup(rt, "9", 9)?;
    index.lookup(rt, "10", 10)?;
    index.lookup(rt, "a foreign id", 11)?;
    let one = Small::build(2.0, &[9]);
    let index = Stored::of(&one);
    index.lookup(rt, "9 where it is the one id", 9)?;
    index.lookup(rt, "11 where 9 is the one id", 11)?;
    let none = Small::build(2.0, &[]);
    let index = Stored::of(&none);
    index.lookup(rt, "0 where there are no ids", 0)?;
    index.lookup(rt, "9 where there are no ids", 9)?;
    index.lookup(rt, "2^64 - 1 where there are no ids", u64::MAX)
}
