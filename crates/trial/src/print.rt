// Lines of text on standard output: answers, lists of numbers, and what stores hold.
use refusal::Refusal;
use std::{fmt, io};

// What a line says where a call is not refused.
pub trait Tell {
    fn tell<W: fmt::Write>(&self, f: &mut fmt::Formatter<W>) -> fmt::Result;
}

impl Tell for () {
    fn tell<W: fmt::Write>(&self, f: &mut fmt::Formatter<W>) -> fmt::Result {
        f.write_str("done")
    }
}

impl Tell for bool {
    fn tell<W: fmt::Write>(&self, f: &mut fmt::Formatter<W>) -> fmt::Result {
        f.write_str(if *self { "yes" } else { "no" })
    }
}

impl Tell for u64 {
    fn tell<W: fmt::Write>(&self, f: &mut fmt::Formatter<W>) -> fmt::Result {
        write!(f, "{self}")
    }
}

// An answer as a line ends with it: what is told, or the refusal.
#[derive(Clone, Copy)]
struct Told<T>(Result<T, Refusal>);

impl<T: Tell> fmt::Display for Told<T> {
    fn fmt<W: fmt::Write>(&self, f: &mut fmt::Formatter<W>) -> fmt::Result {
        match &self.0 {
            Ok(answer) => answer.tell(f),
            Err(refusal) => write!(f, "{refusal}"),
        }
    }
}

// A line: what was asked, and the answer.
pub fn answer<T: Tell + Copy>(
    rt: &impl Print,
    name: impl fmt::Display + Drop,
    told: Result<T, Refusal>,
) -> io::Result<()> {
    println!(rt; "{name}: {}", Told(told))
}

// Numbers, each behind a space.
#[derive(Clone, Copy)]
pub struct Numbers<'a>(pub &'a [u64]);

impl fmt::Display for Numbers<'_> {
    fn fmt<W: fmt::Write>(&self, f: &mut fmt::Formatter<W>) -> fmt::Result {
        for n in self.0 {
            write!(f, " {n}")?;
        }
        Ok(())
    }
}

// What a store holds: its numbers, or the one number of a long store.
#[derive(Clone, Copy)]
pub struct Contents<'a>(pub &'a [u64]);

impl fmt::Display for Contents<'_> {
    fn fmt<W: fmt::Write>(&self, f: &mut fmt::Formatter<W>) -> fmt::Result {
        match self.0 {
            [n, rest @ ..] if rest.len() >= 8 && rest.iter().all(|other| other == n) => {
                write!(f, " all {n}")
            }
            store => write!(f, "{}", Numbers(store)),
        }
    }
}
