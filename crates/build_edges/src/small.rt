// Builds in small stores, for the lines that go on with what they made.
ghost use Rattle.std.specs.Prelude.{◌≡◌, MatchResult};
ghost use Rattle.head.specs.Index.{no_head};

use head::Head;
use refusal::Refusal;

// What the build of three ids at most answers, and its stores, which have room for one level of 255 bits.
#[derive(Clone, Copy)]
pub struct Small {
    pub built: Result<Head, Refusal>,
    pub words: [u64; 4],
    pub samples: [u64; 1],
}

impl Small {
    pub fn build(gamma: f64, ids: &[u64]) -> Small {
        let mut words = [7; 4];
        let mut samples = [7; 1];
        let built = build::build(
            0,
            gamma,
            ids,
            &mut words,
            &mut samples,
            &mut [7; 4],
            &mut [7; 3],
        );
        Small {
            built,
            words,
            samples,
        }
    }

    // The head, or that of zeros where the build is refused.
    pub fn head(&self) -> Head
        ensures { MatchResult self.now.built (λ head. result ≡ head) (λ refusal. result ≡ no_head) }
    {
        self.built.unwrap_or(Head::none())
    }
}
