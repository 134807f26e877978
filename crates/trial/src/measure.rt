// The bits, words and samples of a level.
ghost use Rattle.std.specs.Prelude.{◌≡◌};
ghost use Rattle.trial.specs.Takes.{takes_for};

// What a level takes: nothing, where gamma or the number of ids is out of bounds.
#[derive(Clone, Copy, Default)]
pub struct Takes {
    pub bits: u64,
    pub words: u64,
    pub samples: u64,
}

// What a level takes for so many ids. Zeros where it takes nothing, and no `Option`: the call can't fail.
#[tactic(auto, using(sizes::proofs::Sizes::size_most), unfolding(crate::specs::Takes::takes_for))]
pub fn measure(gamma: f64, ids: u64) -> Takes
    ensures { result ≡ takes_for gamma ids }
{
    if sizes::above_max(gamma) || !sizes::above_min(gamma) || ids > bounds::MAX_IDS {
        return Takes::default();
    }
    let bits = sizes::size(gamma, ids);
    let words = words::u64s(bits);
    let samples = sizes::samples(words);
    Takes {
        bits,
        words,
        samples,
    }
}
