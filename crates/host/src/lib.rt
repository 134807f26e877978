// The calls for hosts, which `host_c` exports. Every result is one number: a value, 2^64 - 1 for none, 2^64 - 1 - r for refusal r. C and Rust lend each store by itself,
// so that the stores stay parameters of their own, here and in the calls behind.
#![tactic(auto)]

mod answer;
mod images;
mod index;
mod set;

pub use images::{shawltide_image_read, shawltide_image_write};
pub use index::{shawltide_build, shawltide_lookup, shawltide_rows};
pub use set::{
    shawltide_set_contains, shawltide_set_empty, shawltide_set_eq_left, shawltide_set_insert,
    shawltide_set_insert_all, shawltide_set_is_empty, shawltide_set_len, shawltide_set_members,
    shawltide_set_ones, shawltide_set_remove,
};
