// The walk from an id to its row, through the levels of a head that fits its stores (boomphf's `try_hash` and `get_rank`).
#![tactic(auto)]

ghost use Rattle.std.specs.Prelude.{◌≡◌, ◌/◌, ◌<◌, length, true, IfOk, IfErr, Ok, Err};
ghost use Rattle.bounds.specs.Bounds.{sample_bits};
ghost use Rattle.mixer.specs.Position.{position};
ghost use Rattle.head.specs.Layout.{size_at, fit};
ghost use Rattle.finding.specs.Find.{answer_of, row_answer, find_in};
ghost use Rattle.finding.specs.Fitting.{kind_fitting};

use bounds::{MAX_IDS, SAMPLE_BITS};
use head::Head;
use mixer::{Kind, hashmod};
use ranks::{ones_from, part};
use refusal::Refusal;
use words::{has_bit, u64s};

// A row, with its level and its position there.
#[derive(Clone, Copy)]
pub struct Place {
    pub row: u64,
    pub level: u64,
    pub position: u64,
}

// A head of a known kind, with the stores that it fits.
#[derive(Clone, Copy)]
pub struct Index<'a> {
    pub kind: Kind,
    pub head: &'a Head,
    pub words: &'a [u64],
    pub samples: &'a [u64],
    pub ghost fits: { fit head.now.count head.now.levels head.now.sizes (length words.now) (length samples.now) ≡ true },
}

impl<'a> Index<'a> {
    // The index of any head and stores, if they are one: the kind is checked first, then the fit.
    #[tactic(auto, unfolding(crate::specs::Fitting::kind_fitting))]
    pub fn of(head: &'a Head, words: &'a [u64], samples: &'a [u64]) -> Result<Index<'a>, Refusal>
        ensures ok { IfOk result (λ index.
            (kind_fitting head.now (length words.now) (length samples.now) ≡ Ok index.kind)
            × (index.head.now ≡ head.now)
            × (index.words.now ≡ words.now)
            × (index.samples.now ≡ samples.now)) }
        ensures err { IfErr result (λ why. kind_fitting head.now (length words.now) (length samples.now) ≡ Err why) }
    {
        let kind = Kind::try_from(head.kind)?;
        if !head.is_fit(words.len(), samples.len()) {
            return Err(Refusal::UnfitHead);
        }
        Ok(Index {
            kind,
            head,
            words,
            samples,
        })
    }

    // The row of an id.
    #[tactic(auto, using(head::proofs::Fits::fit_known))]
    pub fn find(&self, id: u64) -> Result<Option<Place>, Refusal>
        ensures { answer_of result
            ≡ find_in (position self.now.kind) self.now.head.now.count (size_at self.now.head.now.sizes)
            self.now.words.now self.now.samples.now id self.now.head.now.levels }
    {
        let sizes = &self.head.sizes[..self.head.levels as usize];
        let mut at: usize = 0;
        let mut sampled: usize = 0;
        for (i, &size) in sizes.iter().enumerate() {
            let taken = u64s(size) as usize;
            let level = part(self.words, at, taken);
            let position = hashmod(self.kind, i as u64, id, size);
            let ranked = sizes::samples(taken as u64) as usize;
            if has_bit(level, position) {
                let samples = part(self.samples, sampled, ranked);
                return row_at(self.head.count, level, samples, i as u64, position);
            }
            at += taken;
            sampled += ranked;
        }
        Ok(None)
    }
}

// The row of a set bit, from the words and samples of its level.
#[tactic(auto, unfolding(crate::specs::Find::row_answer), using(ranks::proofs::Ones::ones_from_le))]
fn row_at(
    count: u64,
    words: &[u64],
    samples: &[u64],
    level: u64,
    position: u64,
) -> Result<Option<Place>, Refusal>
    requires word_there { position / 64 < length words.now }
    requires sample_there { position / sample_bits < length samples.now }
    ensures { answer_of result ≡ row_answer count words.now samples.now level position }
{
    let sample = samples[(position / SAMPLE_BITS) as usize];
    if sample > MAX_IDS {
        return Err(Refusal::UnfitRow);
    }
    let row = sample + ones_from(words, position);
    if row >= count {
        return Err(Refusal::UnfitRow);
    }
    Ok(Some(Place {
        row,
        level,
        position,
    }))
}
