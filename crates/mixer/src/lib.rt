// From an id to its position among the bits of a level: the kinds of hash, the plain mixer, which is the public SplitMix64 step, the seed word
// of a level, and the position of the folded hash. The names are boomphf's where it has one.
#![tactic(auto)]

ghost use Rattle.std.specs.Prelude.{◌≡◌, ◌*◌, ◌%◌, ◌^◌, ◌≤◌};
ghost use Rattle.bounds.specs.Bounds.{max_bits};
ghost use Rattle.mixer.specs.Kinds.{kind_of};
ghost use Rattle.mixer.specs.Mixer.{mixed, seed_word, hashed};
ghost use Rattle.mixer.specs.Position.{folded, scaled, position};

use refusal::Refusal;

// The known kinds of hash.
#[derive(Clone, Copy, Debug, PartialEq, Eq)]
pub enum Kind {
    // 0: the plain mixer.
    Plain,
}

// The kind that a number stands for. Every other number is refused.
impl TryFrom<u64> for Kind {
    type Error = Refusal;

    ghost try_from_gives = { λ number kind. kind ≡ kind_of number };

    #[tactic(auto, unfolding(crate::specs::Kinds::kind_of))]
    fn try_from(number: u64) -> Result<Kind, Refusal> {
        match number {
            0 => Ok(Kind::Plain),
            _ => Err(Refusal::UnknownKind),
        }
    }
}

// a * b modulo 2^64. The halves' products fit, and that of the two high halves falls away. From halves and not by the integer's own method, as the list of
// forms in docs/DECISIONS.md asks.
pub fn wrapping_mul(a: u64, b: u64) -> u64
    ensures { result ≡ a * b % 2 ^ 64 }
{
    let high_a = a / 0x1_0000_0000;
    let low_a = a % 0x1_0000_0000;
    let high_b = b / 0x1_0000_0000;
    let low_b = b % 0x1_0000_0000;
    let middle = (high_a * low_b).wrapping_add(low_a * high_b);
    (middle % 0x1_0000_0000 * 0x1_0000_0000).wrapping_add(low_a * low_b)
}

// The plain mixer.
pub fn mix(id: u64, seed: u64) -> u64
    ensures { result ≡ mixed id seed }
{
    let z = id.wrapping_add(seed).wrapping_add(0x9e37_79b9_7f4a_7c15);
    let y = wrapping_mul(z ^ (z >> 30), 0xbf58_476d_1ce4_e5b9);
    let x = wrapping_mul(y ^ (y >> 27), 0x94d0_49bb_1331_11eb);
    x ^ (x >> 31)
}

// The seed word of a level. Each comes again after 32 levels.
pub fn seed_word(level: u64) -> u64
    ensures { result ≡ seed_word level }
{
    1 << (2 * (level % 32))
}

// The hash of an id at a level.
pub fn hash_with_seed(kind: Kind, level: u64, id: u64) -> u64
    ensures { result ≡ hashed kind level id }
{
    match kind {
        Kind::Plain => mix(id, seed_word(level)),
    }
}

// The low 32 bits xor the high 32 bits.
pub fn fold(v: u64) -> u32
    ensures { result ≡ folded v }
{
    (v % 0x1_0000_0000) as u32 ^ (v >> 32) as u32
}

// The place of a folded hash among n.
pub fn fastmod(hash: u32, n: u32) -> u64
    ensures { result ≡ scaled hash n }
{
    ((hash as u64) * (n as u64)) >> 32
}

// The position of an id among the n bits of a level.
pub fn hashmod(kind: Kind, level: u64, id: u64, n: u64) -> u64
    requires { n ≤ max_bits }
    ensures { result ≡ position kind level n id }
{
    fastmod(fold(hash_with_seed(kind, level, id)), n as u32)
}
