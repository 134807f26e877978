// Lookup: from an id to its row, in any head and stores.
#![tactic(auto)]

ghost use Rattle.std.specs.Prelude.{◌≡◌};
ghost use Rattle.finding.specs.Find.{answer_of};
ghost use Rattle.lookup.specs.Lookup.{lookup_call};

use finding::{Index, Place};
use head::Head;
use refusal::Refusal;

// Looks an id up. A foreign id may get a row too: a row proves no membership.
#[tactic(auto, using(crate::proofs::Lookups::lookup_refused, crate::proofs::Lookups::lookup_found))]
pub fn lookup(
    head: &Head,
    words: &[u64],
    samples: &[u64],
    id: u64,
) -> Result<Option<Place>, Refusal>
    ensures { answer_of result ≡ lookup_call head.now words.now samples.now id }
{
    Index::of(head, words, samples)?.find(id)
}
