// What the programs `edges` and `replay` share, and the libraries of their cases.
#![tactic(auto)]

pub mod measure;
pub mod print;
pub mod stores;
