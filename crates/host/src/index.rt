// The calls on an index, with the head as numbers and each answer as one number.
ghost use Rattle.std.specs.Prelude.{◌≡◌, ◌≤◌, ◌∷◌, length};
ghost use Rattle.laws.specs.Stores.{fronted};
ghost use Rattle.head.specs.Numbers.{numbers_of};
ghost use Rattle.run.specs.Stores.{stores};
ghost use Rattle.rows.specs.Rows.{row_stores};
ghost use Rattle.host.specs.Numbers.{value_in};
ghost use Rattle.host.specs.Flat.{seen, flat_built, out_places, head_made, head_lent, flat_build, flat_lookup, flat_rows};

use crate::answer::{number, refused};
use head::{Head, NUMBERS};
use refusal::Refusal;

// How many places `out` needs: one for a value, and the head's.
pub(crate) const OUT: usize = 1 + NUMBERS;

// How many places the `place` of a lookup needs: level and position.
const PLACE: usize = 2;

// Builds an index of the ids by a kind of hash: 0, or the refusal. `out` gets the value that refusal 5 or 6 carries, else 0, and the head.
pub fn shawltide_build(
    kind: u64,
    gamma: f64,
    ids: &[u64],
    words: &mut [u64],
    samples: &mut [u64],
    collide: &mut [u64],
    rest: &mut [u64],
    out: &mut [u64],
) -> u64
    ensures { seen result (flat_built (stores words.new samples.new collide.new rest.new) out.new)
        ≡ flat_build kind gamma ids.now (stores words.old samples.old collide.old rest.old) out.old }
{
    if out.len() < OUT {
        return refused(Refusal::ShortOutput);
    }
    let built = build::build(kind, gamma, ids, words, samples, collide, rest);
    write_out(&built, out);
    number(built)
}

// What a call that makes a head leaves at the front of `out`: the value that its refusal carries, else 0, and the head, which is of 0 where it is refused.
pub(crate) fn write_out(made: &Result<Head, Refusal>, out: &mut [u64])
    requires { out_places ≤ length out.old }
    ensures { out.new ≡ fronted (value_in made.now ∷ numbers_of (head_made made.now)) out.old }
{
    match made {
        Ok(head) => {
            out[0] = 0;
            head.write(&mut out[1..]);
        }
        Err(why) => {
            out[0] = why.value();
            Head::none().write(&mut out[1..]);
        }
    }
}

// The head of the numbers that a host lends, if they are as many as a head is.
#[tactic(auto, unfolding(crate::specs::Flat::head_lent))]
pub(crate) fn head_of(numbers: &[u64]) -> Option<Head>
    ensures { result ≡ head_lent numbers.now }
{
    if numbers.len() == NUMBERS {
        Some(Head::read(numbers))
    } else {
        None
    }
}

// The id's row, none, or the refusal. `place` gets the level and the position of a row.
pub fn shawltide_lookup(
    head: &[u64],
    words: &[u64],
    samples: &[u64],
    id: u64,
    place: &mut [u64],
) -> u64
    ensures { seen result place.new
        ≡ flat_lookup head.now words.now samples.now id place.old }
{
    if place.len() < PLACE {
        return refused(Refusal::ShortOutput);
    }
    let Some(head) = head_of(head) else {
        return refused(Refusal::UnfitHead);
    };
    match lookup::lookup(&head, words, samples, id) {
        Ok(Some(at)) => {
            place[0] = at.level;
            place[1] = at.position;
            at.row
        }
        Ok(None) => u64::MAX,
        Err(why) => refused(why),
    }
}

// Writes at each row the id that lookup sends there: 0, or the refusal.
pub fn shawltide_rows(
    head: &[u64],
    words: &[u64],
    samples: &[u64],
    ids: &[u64],
    rows: &mut [u64],
    marks: &mut [u64],
) -> u64
    ensures { seen result (row_stores rows.new marks.new)
        ≡ flat_rows head.now words.now samples.now ids.now rows.old marks.old }
{
    let Some(head) = head_of(head) else {
        return refused(Refusal::UnfitHead);
    };
    number(rows::rows(&head, words, samples, ids, rows, marks))
}
