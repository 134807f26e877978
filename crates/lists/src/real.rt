// Gamma, which a line gives by its bits.
ghost use Rattle.std.specs.Prelude.{◌≡◌};
ghost use Rattle.lists.specs.Real.{real_of};

// The f64 of these bits: 0, where they are those of none that is finite and not negative.
#[tactic(auto, unfolding(crate::specs::Real::real_of))]
pub fn real(bits: u64) -> f64
    ensures { result ≡ real_of bits }
{
    if bits < INFINITY {
        f64::from_bits(bits)
    } else {
        0.0
    }
}

// Below it are the bits of the finite f64s that are not negative.
const INFINITY: u64 = 0x7ff0_0000_0000_0000;
