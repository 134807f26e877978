// Why a call is refused: the table of refusal numbers, a case for each, with the value that it carries. A call that may be refused answers a `Result`.
#![tactic(auto)]

ghost use Rattle.std.specs.Prelude.{◌≡◌};
ghost use Rattle.refusal.specs.Table.{number_of, value_of};

use std::error::Error;
use std::fmt;

#[derive(Clone, Copy, Debug, PartialEq, Eq)]
pub enum Refusal {
    // 1: gamma is not above 1.01.
    GammaTooSmall,
    // 2: gamma is above 16.
    GammaTooLarge,
    // 3: more ids than the bound.
    TooManyIds,
    // 4: the rest store or the collide store is too short.
    ShortWorkStore,
    // 5: the word store or the sample store has no room for this level.
    NoRoomForLevel(u64),
    // 6: so many ids remain after the last level.
    IdsRemain(u64),
    // 7: the head does not fit its bounds or its stores.
    UnfitHead,
    // 8: a set bit whose sample or row cannot be.
    UnfitRow,
    // 9: the bit is not below the capacity.
    BitOutside,
    // 10: the store does not hold a set of the capacity.
    UnfitSet,
    // 11: a store that the call writes is too short.
    ShortOutput,
    // 12: the ids are not those of the index.
    WrongIds,
    // 13: the image is too short, or not whole blocks.
    UnfitLength,
    // 14: this block has a wrong number or check, and is the first such.
    BadBlock(u64),
    // 15: no content of an image: of blocks that are read, or of a head that is to be written.
    UnfitContent,
    // 16: no known kind of hash.
    UnknownKind,
}

impl Refusal {
    // Its number in the table.
    pub fn number(self) -> u64
        ensures { result ≡ number_of self }
    {
        match self {
            Refusal::GammaTooSmall => 1,
            Refusal::GammaTooLarge => 2,
            Refusal::TooManyIds => 3,
            Refusal::ShortWorkStore => 4,
            Refusal::NoRoomForLevel(_) => 5,
            Refusal::IdsRemain(_) => 6,
            Refusal::UnfitHead => 7,
            Refusal::UnfitRow => 8,
            Refusal::BitOutside => 9,
            Refusal::UnfitSet => 10,
            Refusal::ShortOutput => 11,
            Refusal::WrongIds => 12,
            Refusal::UnfitLength => 13,
            Refusal::BadBlock(_) => 14,
            Refusal::UnfitContent => 15,
            Refusal::UnknownKind => 16,
        }
    }

    // The value that 5, 6 or 14 carries, else 0.
    pub fn value(self) -> u64
        ensures { result ≡ value_of self }
    {
        match self {
            Refusal::NoRoomForLevel(level) => level,
            Refusal::IdsRemain(ids) => ids,
            Refusal::BadBlock(block) => block,
            _ => 0,
        }
    }
}

// As the programs write it: `refused 6`.
impl fmt::Display for Refusal {
    fn fmt<W: fmt::Write>(&self, f: &mut fmt::Formatter<W>) -> fmt::Result {
        write!(f, "refused {}", self.number())
    }
}

impl Error for Refusal {}
