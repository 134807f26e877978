// Build (boomphf's `Mphf::new` and `compute_ranks`): from ids to an index, one level after another.
#![tactic(auto)]

ghost use Rattle.std.specs.Prelude.{◌≡◌, ◌≤◌, length};
ghost use Rattle.laws.specs.Stores.{fronted};
ghost use Rattle.run.specs.Stores.{SameStores, held, stores};
ghost use Rattle.build.specs.Build.{built_of, build_checks, build_call};
ghost use Rattle.build.specs.Ending.{prepared, after_run};

use bounds::{HEAD_SIZES, MAX_IDS};
use head::Head;
use mixer::Kind;
use refusal::Refusal;
use run::Stores;
use words::u64s;

// Builds an index of the ids, by a kind of hash, in the word and sample stores. The collide and rest stores are for its work.
pub fn build(
    kind: u64,
    gamma: f64,
    ids: &[u64],
    words: &mut [u64],
    samples: &mut [u64],
    collide: &mut [u64],
    rest: &mut [u64],
) -> Result<Head, Refusal>
    ensures { built_of result (stores words.new samples.new collide.new rest.new)
        ≡ build_call kind gamma ids.now (stores words.old samples.old collide.old rest.old) }
{
    let known = Kind::try_from(kind)?;
    check(
        gamma,
        ids.len() as u64,
        collide.len() as u64,
        rest.len() as u64,
    )?;
    let mut lent = Stores {
        words,
        samples,
        collide,
        rest,
    };
    begin(ids, &mut lent);
    let mut sizes = [0; HEAD_SIZES];
    let run = lent.build_levels(known, gamma, ids.len(), &mut sizes);
    end(run, kind, ids.len() as u64, sizes, &mut lent)
}

// The checks 1 to 4, of so many ids and of work stores of so many places.
#[tactic(auto, unfolding(crate::specs::Build::build_checks))]
fn check(gamma: f64, ids: u64, collide: u64, rest: u64) -> Result<(), Refusal>
    ensures { result ≡ build_checks gamma ids collide rest }
{
    if !sizes::above_min(gamma) {
        return Err(Refusal::GammaTooSmall);
    }
    if sizes::above_max(gamma) {
        return Err(Refusal::GammaTooLarge);
    }
    if ids > MAX_IDS {
        return Err(Refusal::TooManyIds);
    }
    if ids > rest || u64s(sizes::size(gamma, ids)) > collide {
        return Err(Refusal::ShortWorkStore);
    }
    Ok(())
}

// Clears the stores, and puts the ids at the front of the rest store.
fn begin(ids: &[u64], lent: &mut Stores)
    requires { length ids.now ≤ length lent.old.rest.now }
    ensures same { SameStores lent.old lent.new }
    ensures begun { held lent.new ≡ prepared ids.now (held lent.old) }
{
    lent.words.fill(0);
    lent.samples.fill(0);
    lent.collide.fill(0);
    copy(ids, lent.rest);
}

// Copies the ids to the front of the rest store. A function on a plain slice: after a loop over a field of a lent struct, what the struct holds does not follow
// by itself. No `copy_from_slice`: that is a memmove, which the archive for C would need from outside beside memcpy and memset.
fn copy(ids: &[u64], rest: &mut [u64])
    requires { length ids.now ≤ length rest.old }
    ensures { rest.new ≡ fronted ids.now rest.old }
{
    for (i, id) in ids.iter().enumerate() {
        rest[i] = *id;
    }
}

// What a run answers: the head of the index, or a refusal, which leaves nothing in the index's stores. The rest store is cleared.
fn end(
    run: Result<u64, Refusal>,
    kind: u64,
    ids: u64,
    sizes: [u64; HEAD_SIZES],
    lent: &mut Stores,
) -> Result<Head, Refusal>
    ensures same { SameStores lent.old lent.new }
    ensures after { built_of result (held lent.new) ≡ after_run run kind ids sizes (held lent.old) }
{
    lent.rest.fill(0);
    match run {
        Ok(levels) => Ok(Head {
            kind,
            count: ids,
            levels,
            sizes,
        }),
        Err(why) => {
            lent.words.fill(0);
            lent.samples.fill(0);
            Err(why)
        }
    }
}
