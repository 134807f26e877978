// Gammas on both sides of their two bounds, and the sizes of levels.
use build_edges::Small;
use std::io;
use trial::measure::measure;

pub fn gammas(rt: &impl Print) -> io::Result<()> {
    gamma(rt, "NaN", f64::NAN)?;
    gamma(rt, "minus infinity", f64::NEG_INFINITY)?;
    gamma(rt, "minus zero", -0.0)?;
    gamma(rt, "1.01", 1.01)?;
    gamma(rt, "the next above 1.01", 1.0100000000000002)?;
    gamma(rt, "16", 16.0)?;
    gamma(rt, "the next above 16", 16.000000000000004)?;
    gamma(rt, "infinity", f64::INFINITY)
}

// A line: whether one id is built.
fn gamma(rt: &impl Print, name: &str, gamma: f64) -> io::Result<()> {
    match Small::build(gamma, &[9]).built {
        Ok(_) => println!(rt; "gamma {name}: goes"),
        Err(refusal) => println!(rt; "gamma {name}: {refusal}"),
    }
}

pub fn sizes(rt: &impl Print) -> io::Result<()> {
    size(rt, 1.7, 151)?;
    size(rt, 16.0, 1_048_576)
}

// A line: what a level takes for so many ids, or nothing.
fn size(rt: &impl Print, gamma: f64, ids: u64) -> io::Result<()> {
    let takes = measure(gamma, ids);
    println!(rt;
        "gamma {gamma}, {ids} ids: {} bits, {} words, {} samples",
        takes.bits, takes.words, takes.samples
    )
}
