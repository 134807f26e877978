// An index as a line asks it: of its head and its stores nothing is known.
ghost use Rattle.std.specs.Prelude.{◌≡◌, MatchResult};
ghost use Rattle.head.specs.Index.{no_head};

use build_edges::Small;
use head::Head;
use std::{fmt, io};
use trial::print::{Contents, answer};
use trial::stores::first_mut;

#[derive(Clone, Copy)]
pub struct Stored<'a> {
    pub head: Head,
    pub words: &'a [u64],
    pub samples: &'a [u64],
}

impl<'a> Stored<'a> {
    pub fn of(built: &'a Small) -> Stored<'a>
        ensures head { MatchResult built.now.built (λ head. result.head ≡ head)
            (λ refusal. result.head ≡ no_head) }
        ensures words { result.words.now ≡ built.now.words }
        ensures samples { result.samples.now ≡ built.now.samples }
    {
        Stored {
            head: built.head(),
            words: &built.words,
            samples: &built.samples,
        }
    }

    // A line: what is looked up, and the answer.
    pub fn lookup(
        &self,
        rt: &impl Print,
        name: impl fmt::Display + Drop,
        id: u64,
    ) -> io::Result<()> {
        print!(rt; "lookup, {name}: ")?;
        match lookup::lookup(&self.head, self.words, self.samples, id) {
            Ok(Some(place)) => println!(rt;
                "row {} level {} position {}",
                place.row, place.level, place.position
            ),
            Ok(None) => println!(rt; "none"),
            Err(refusal) => println!(rt; "{refusal}"),
        }
    }

    // A line: a row list of these ids, in stores of so many rows and marks that held 7, what it leaves in them, and the answer.
    pub fn rows(
        &self,
        rt: &impl Print,
        name: impl fmt::Display + Drop,
        ids: &[u64],
        rows: usize,
        marks: usize,
    ) -> io::Result<()> {
        let mut row_store = [7; 3];
        let mut mark_store = [7; 2];
        let listed = rows::rows(
            &self.head,
            self.words,
            self.samples,
            ids,
            first_mut(&mut row_store, rows),
            first_mut(&mut mark_store, marks),
        );
        print!(rt; "rows, {name}, places{}", Contents(&row_store))?;
        answer(rt, format_args!(", marks{}", Contents(&mark_store)), listed)
    }
}
