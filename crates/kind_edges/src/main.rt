// Kinds of hash that are not known, in every call, and older images, which have no kind: each line is written with what the proved functions answer, and the file stdout has what the scope says.
#![tactic(auto)]

mod calls;
mod reads;

use std::io;

fn main(rt: HostRuntime) -> io::Result<()> {
    calls::builds(&rt)?;
    calls::lookups(&rt)?;
    calls::lists(&rt)?;
    calls::writes(&rt)?;
    reads::kinds(&rt)?;
    reads::beside(&rt)?;
    older_edges::indexes(&rt)?;
    older_edges::changes(&rt)
}
