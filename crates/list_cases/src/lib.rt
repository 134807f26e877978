// The cases of a list, one after the other, up to the check that ends it.
#![tactic(auto)]

ghost use Rattle.std.specs.Prelude.{◌<◌, IfOk};
ghost use Rattle.list_cases.specs.declared.TheConstants.{MOST_CASES};

use cases::{Case, holds};
use lists::file::List;
use lists::line::{Line, MOST};
use std::io::Read;
use std::{fmt, io};

// Why a list is not equal, and at which of its lines, counted from 1.
#[derive(Clone, Copy, Debug)]
pub enum Fault {
    Differs(u64),
    Broken(u64),
}

impl fmt::Display for Fault {
    fn fmt<W: fmt::Write>(&self, f: &mut fmt::Formatter<W>) -> fmt::Result {
        match self {
            Fault::Differs(case) => write!(f, "case {case} differs"),
            Fault::Broken(line) => {
                write!(f, "line {line} cannot be read, or the list was changed")
            }
        }
    }
}

// No list has more cases.
const MOST_CASES: u64 = 1_000_000;

// How many cases a list has, each of which holds by a test of the caller's own. A case is lent a copy of its line too, which its calls may write to. Lines are counted,
// since the number of one that does not hold is the answer.
pub fn compare<R: Read + Drop, F: Fn(Line<'_>, &mut [u64]) -> bool>(
    list: &mut List<R>,
    holds: F,
) -> Result<u64, Fault>
    requires { F.IsAlwaysCallable holds }
    ensures { IfOk result (λ cases. cases < MOST_CASES) }
{
    let mut store = [0; MOST];
    for cases in 0..MOST_CASES {
        let at = cases + 1;
        let next = list.next_line().map_err(|_| Fault::Broken(at))?;
        let Some(line) = next else {
            return Ok(cases);
        };
        if !holds(line, line.copy_to(&mut store)) {
            return Err(Fault::Differs(at));
        }
    }
    Err(Fault::Broken(MOST_CASES))
}

// How many cases of this kind a list has, each of which holds: what `compare` answers of a test of that kind. With a loop of its own, which asks no clause of its
// callers, since it calls nothing that was passed in.
pub fn compare_as<R: Read + Drop>(list: &mut List<R>, case: Case) -> Result<u64, Fault> {
    let mut store = [0; MOST];
    for cases in 0..MOST_CASES {
        let at = cases + 1;
        let next = list.next_line().map_err(|_| Fault::Broken(at))?;
        let Some(line) = next else {
            return Ok(cases);
        };
        if !holds(case, line, line.copy_to(&mut store)) {
            return Err(Fault::Differs(at));
        }
    }
    Err(Fault::Broken(MOST_CASES))
}

// A line: the name of the list, and how far it is equal.
pub fn report(rt: &impl Print, name: &str, outcome: Result<u64, Fault>) -> io::Result<()> {
    match outcome {
        Ok(cases) => println!(rt; "{name} {cases} equal"),
        Err(fault) => println!(rt; "{name} {fault}"),
    }
}

#[cfg(test)]
mod tests;
