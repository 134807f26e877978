// The static library for C and Rust: each call of `host` under its own name, with the clauses that it has there. A slice is a pointer and a length.
#![tactic(auto)]

mod images;
mod index;
mod set;
