// Lists of answers: how one is read, what a line says, and what a call may leave in the stores that it was lent.
#![tactic(auto)]

pub mod file;
pub mod left;
pub mod line;
pub mod real;
