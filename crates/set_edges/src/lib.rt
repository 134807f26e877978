// Sets: bits on both sides of the capacity, `ones` of capacities around the end of a word, sets that are unfit, and stores that are too short.
#![tactic(auto)]

use bitvector::{contains, eq_left, insert, insert_all, len, members, ones, remove};
use std::io;
use trial::print::{Numbers, answer};
use trial::stores::first_mut;

pub fn run(rt: &impl Print) -> io::Result<()> {
    bits(rt)?;
    for capacity in [0, 1, 63, 64, 65, 255, 256] {
        ones_of(rt, capacity)?;
    }
    capacities(rt)?;
    strays(rt)?;
    lists(rt)
}

fn bits(rt: &impl Print) -> io::Result<()> {
    let mut words = [0; 4];
    answer(rt, "255 bits, insert 254", insert(255, &mut words, 254))?;
    answer(rt, "255 bits, insert 255", insert(255, &mut words, 255))?;
    answer(rt, "255 bits, contains 255", contains(255, &words, 255))?;
    answer(rt, "255 bits, remove 255", remove(255, &mut words, 255))?;
    // What those calls left, held to itself up to the capacity and past it.
    answer(
        rt,
        "255 bits, eq_left 255",
        eq_left(255, &words, 255, &words, 255),
    )?;
    answer(
        rt,
        "255 bits, eq_left 256",
        eq_left(255, &words, 256, &words, 256),
    )?;
    println!(rt; "words:{}", Numbers(&words))
}

// The set of so many numbers, in a store of six words that are 7: 7 is left past those that it needs.
fn ones_of(rt: &impl Print, capacity: u64) -> io::Result<()> {
    let mut words = [7; 6];
    let made = ones(capacity, &mut words);
    answer(rt, format_args!("ones of {capacity}"), made)?;
    answer(rt, "len", len(capacity, &words))?;
    println!(rt; "words:{}", Numbers(&words))
}

// A set of 2 bits into one of another capacity.
fn capacities(rt: &impl Print) -> io::Result<()> {
    let mut words = [0; 1];
    answer(rt, "2 bits into 1 bit", insert_all(1, &mut words, 2, &[2]))?;
    println!(rt; "words:{}", Numbers(&words))?;
    answer(rt, "2 bits into 2 bits", insert_all(2, &mut words, 2, &[2]))?;
    println!(rt; "words:{}", Numbers(&words))
}

// Bit 1 of a set of 1 bit: in the word that it needs, and in one that it does not need.
fn strays(rt: &impl Print) -> io::Result<()> {
    stray(rt, "1 bit and a stray one in its word, insert 0", [2, 2])?;
    stray(rt, "1 bit and a stray one past its word, insert 0", [0, 2])
}

fn stray(rt: &impl Print, name: &str, mut words: [u64; 2]) -> io::Result<()> {
    answer(rt, name, insert(1, &mut words, 0))?;
    answer(rt, "len", len(1, &words))?;
    println!(rt; "words:{}", Numbers(&words))
}

fn lists(rt: &impl Print) -> io::Result<()> {
    let mut words = [0; 4];
    for bit in [3, 64, 200] {
        let _ = insert(255, &mut words, bit);
    }
    list(rt, &words, 2)?;
    list(rt, &words, 3)?;
    list(rt, &words, 4)
}

// The three members into so many places that are 7.
fn list(rt: &impl Print, words: &[u64], n: usize) -> io::Result<()> {
    let mut store = [7; 4];
    let places = first_mut(&mut store, n);
    let listed = members(255, words, places);
    answer(rt, format_args!("3 members into {n} places"), listed)?;
    println!(rt; "places:{}", Numbers(places))
}
