// The lines of 01's "Both sides of each line" that are run, and those that images draw: each is written with what the proved functions answer, and the file stdout has what the scope says.
#![tactic(auto)]

mod lists;

use std::io;

fn main(rt: HostRuntime) -> io::Result<()> {
    level_edges::gammas(&rt)?;
    level_edges::sizes(&rt)?;
    set_edges::run(&rt)?;
    level_edges::sampled(&rt)?;
    build_edges::accepted(&rt)?;
    build_edges::refused(&rt)?;
    lookup_edges::lookups(&rt)?;
    damage_edges::lookups(&rt)?;
    lists::lists(&rt)?;
    image_edges::written(&rt)?;
    write_edges::writes(&rt)?;
    read_edges::lengths(&rt)?;
    read_edges::blocks(&rt)?;
    read_edges::contents(&rt)?;
    read_edges::stores(&rt)?;
    read_edges::level_counts(&rt)
}
