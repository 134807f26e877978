// Each kind of case; and cases of hashes, and of the positions and sizes that rest on them: what the numbers of a line are, and whether the proved functions answer
// as it says.
#![tactic(auto)]

ghost use Rattle.std.specs.Prelude.{◌≡◌, ◌≤◌, ◌↔◌, IsTrue};
ghost use Rattle.bounds.specs.Bounds.{max_bits};
ghost use Rattle.lists.specs.Line.{count_of, number_at};
ghost use Rattle.lists.specs.Real.{real_of};
ghost use Rattle.mixer.specs.declared.Kind.TheVariants.{Plain};
ghost use Rattle.mixer.specs.Mixer.{mixed, hashed};
ghost use Rattle.mixer.specs.Position.{folded, position as position_of};
ghost use Rattle.trial.specs.Takes.{takes_for};

use lists::line::Line;
use lists::real::real;
use trial::measure::measure;

// A kind of case, which has a list of its own. An enum, and no function for each: whoever calls one that was passed in asks its own caller that it may be called.
#[derive(Clone, Copy)]
pub enum Case {
    // state, output: of the public splitmix64.c
    Splitmix,
    // level, id, hash
    Mixer,
    // value, folded
    Fold,
    // level, size, id, position
    Position,
    // gamma's bits, ids, size, words
    Size,
    // the calls of the word set: see `set_cases`
    New,
    Ones,
    IsEmpty,
    Len,
    Contains,
    Insert,
    Remove,
    InsertAll,
    EqLeft,
    Members,
    // see `level_cases`
    Level,
    Samples,
    Rank,
    // see `lookup_cases`
    Lookup,
    // see `build_cases`
    Build,
}

// Whether a line is a case of this kind that holds. `store` is a copy of the line, which a call may write to.
pub fn holds(case: Case, line: Line<'_>, store: &mut [u64]) -> bool {
    match case {
        Case::Splitmix => splitmix(line),
        Case::Mixer => hash(line),
        Case::Fold => fold(line),
        Case::Position => position(line),
        Case::Size => size(line),
        Case::New => set_cases::new(line, store),
        Case::Ones => set_cases::ones(line, store),
        Case::IsEmpty => set_cases::is_empty(line),
        Case::Len => set_cases::len(line),
        Case::Contains => set_cases::contains(line),
        Case::Insert => set_cases::insert(line, store),
        Case::Remove => set_cases::remove(line, store),
        Case::InsertAll => set_cases::insert_all(line, store),
        Case::EqLeft => set_cases::eq_left(line),
        Case::Members => set_cases::members(line, store),
        Case::Level => level_cases::place(line, store),
        Case::Samples => level_cases::samples(line, store),
        Case::Rank => level_cases::rank(line),
        Case::Lookup => lookup_cases::lookup(line),
        Case::Build => build_cases::build(line),
    }
}

// state, output: of the public splitmix64.c
pub fn splitmix(line: Line<'_>) -> bool
    ensures { let n = number_at line.entry in
        IsTrue result ↔ (count_of line.entry ≡ 2 × n 1 ≡ mixed (n 0) 0) }
{
    let mixed = mixer::mix(line.number(0), 0);
    line.len() == 2 && mixed == line.number(1)
}

// level, id, hash
pub fn hash(line: Line<'_>) -> bool
    ensures { let n = number_at line.entry in
        IsTrue result ↔ (count_of line.entry ≡ 3 × n 2 ≡ hashed Plain (n 0) (n 1)) }
{
    let hash = mixer::hash_with_seed(mixer::Kind::Plain, line.number(0), line.number(1));
    line.len() == 3 && hash == line.number(2)
}

// value, folded
pub fn fold(line: Line<'_>) -> bool
    ensures { let n = number_at line.entry in
        IsTrue result ↔ (count_of line.entry ≡ 2 × n 1 ≡ folded (n 0)) }
{
    let folded = u64::from(mixer::fold(line.number(0)));
    line.len() == 2 && folded == line.number(1)
}

// level, size, id, position. A size that no level can have is no case.
pub fn position(line: Line<'_>) -> bool
    ensures { let n = number_at line.entry in
        IsTrue result ↔ (count_of line.entry ≡ 4 × n 1 ≤ max_bits × n 3 ≡ position_of Plain (n 0) (n 1) (n 2)) }
{
    let size = line.number(1);
    if size > bounds::MAX_BITS {
        return false;
    }
    let position = mixer::hashmod(mixer::Kind::Plain, line.number(0), line.number(2), size);
    line.len() == 4 && position == line.number(3)
}

// gamma's bits, ids, size, words
pub fn size(line: Line<'_>) -> bool
    ensures { let n = number_at line.entry in
        let takes = takes_for (real_of (n 0)) (n 1) in
        IsTrue result ↔ (count_of line.entry ≡ 4 × takes.bits ≡ n 2 × takes.words ≡ n 3) }
{
    let takes = measure(real(line.number(0)), line.number(1));
    line.len() == 4 && takes.bits == line.number(2) && takes.words == line.number(3)
}
