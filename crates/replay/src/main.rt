// Answers of the Rust, replayed: each list of data/ holds cases of one kind, what was asked and what boomphf answered, and the proved functions must answer the
// same. One line is written for each kind: how many cases are equal, or the first that is not.
#![tactic(auto)]

use cases::Case;
use list_cases::{compare_as, report};
use lists::file::List;
use std::rt::Files;
use std::{fs, io};

fn main(rt: HostRuntime) -> io::Result<()> {
    replay(&rt, "splitmix64", Case::Splitmix)?;
    replay(&rt, "mixer", Case::Mixer)?;
    replay(&rt, "fold", Case::Fold)?;
    replay(&rt, "position", Case::Position)?;
    replay(&rt, "size", Case::Size)?;
    replay(&rt, "new", Case::New)?;
    replay(&rt, "ones", Case::Ones)?;
    replay(&rt, "is_empty", Case::IsEmpty)?;
    replay(&rt, "len", Case::Len)?;
    replay(&rt, "contains", Case::Contains)?;
    replay(&rt, "insert", Case::Insert)?;
    replay(&rt, "remove", Case::Remove)?;
    replay(&rt, "insert_all", Case::InsertAll)?;
    replay(&rt, "eq_left", Case::EqLeft)?;
    replay(&rt, "members", Case::Members)?;
    replay(&rt, "level", Case::Level)?;
    replay(&rt, "samples", Case::Samples)?;
    replay(&rt, "rank", Case::Rank)?;
    replay(&rt, "lookup", Case::Lookup)?;
    replay(&rt, "build", Case::Build)
}

// Compares the list of this name, whose lines are cases of this kind, and writes its line. Not inlined, or main's frame would hold a list for each call.
#[inline(never)]
fn replay(rt: &(impl Files + Print + Eprint + Alloc), name: &str, case: Case) -> io::Result<()> {
    match fs::open(rt, name) {
        Ok(file) => report(rt, name, compare_as(&mut List::new(file), case)),
        Err(error) => fail(rt, name, error),
    }
}

// Writes a line to standard error: the name of the list, and why the system did not open it.
fn fail(rt: &(impl Eprint + Alloc), name: &str, error: io::Error) -> io::Result<()> {
    let shown = format!(in rt.alloc(); "{error}")?;
    let why = words(shown.as_str());
    eprintln!(rt; "{name}: {why}")
}

// The system's words for an error, which shows its number after them: `No such file or directory (os error 2)`.
fn words(shown: &str) -> &str {
    shown
        .split_once(" (os error ")
        .map_or(shown, |(words, _)| words)
}
