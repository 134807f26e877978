// The row list: at each row the id that lookup sends there. That rows and marks have room stays a clause of each step: of a struct with them each promise would also
// have to say that its slices are the same ones.
#![tactic(auto)]

ghost use Rattle.std.specs.Prelude.{◌≡◌, ◌≤◌, ◌<◌, length, MatchOption, IfSome};
ghost use Rattle.std.proofs.Math.Option.{none, some};
ghost use Rattle.laws.specs.Bits.{words_for};
ghost use Rattle.refusal.specs.Answers.{made};
ghost use Rattle.rows.specs.Rows.{row_stores, rows_by, rows_call};
ghost use Rattle.rows.specs.Passes.{row_by, Unmarked, Marked, Checked, with_id, with_ids};

use finding::Index;
use head::Head;
use refusal::Refusal;
use words::{add_bit, fill, u64s};

// Lists the ids at their rows. The marks are to work in.
#[tactic(auto, using(head::proofs::Fits::fit_known, crate::proofs::RowCalls::call_refused))]
pub fn rows(
    head: &Head,
    words: &[u64],
    samples: &[u64],
    ids: &[u64],
    rows: &mut [u64],
    marks: &mut [u64],
) -> Result<(), Refusal>
    ensures { made result (row_stores rows.new marks.new)
        ≡ rows_call head.now words.now samples.now ids.now rows.old marks.old }
{
    let index = Index::of(head, words, samples)?;
    if (rows.len() as u64) < head.count || (marks.len() as u64) < u64s(head.count) {
        return Err(Refusal::ShortOutput);
    }
    list_rows(&index, ids, rows, marks)
}

// The same, in stores that are long enough: no row is written before it is known that the ids fill the rows one for one.
#[tactic(auto, using(head::proofs::Fits::fit_known))]
fn list_rows(index: &Index, ids: &[u64], rows: &mut [u64], marks: &mut [u64]) -> Result<(), Refusal>
    requires rows_fit { index.now.head.now.count ≤ length rows.old }
    requires marks_fit { words_for index.now.head.now.count ≤ length marks.old }
    ensures { made result (row_stores rows.new marks.new)
        ≡ rows_by (row_by index.now) index.now.head.now.count ids.now rows.old marks.old }
{
    let need = u64s(index.head.count) as usize;
    fill(marks, need, 0);
    if ids.len() as u64 != index.head.count {
        return Err(Refusal::WrongIds);
    }
    let apart = are_apart(index, ids, marks);
    fill(marks, need, 0);
    if !apart {
        return Err(Refusal::WrongIds);
    }
    write_rows(index, ids, rows);
    Ok(())
}

// Whether every id has a row and no two share one, by marks that are clear at first. A `for`, not `all`: of a closure that changes the marks no proof knows what it
// answered.
fn are_apart(index: &Index, ids: &[u64], marks: &mut [u64]) -> bool
    requires marks_fit { words_for index.now.head.now.count ≤ length marks.old }
    requires unmarked { Unmarked index.now.head.now.count marks.old }
    ensures { Checked (row_by index.now) ids.now index.now.head.now.count marks.old result marks.new }
{
    for &id in ids {
        if !mark_row(index, id, marks) {
            return false;
        }
    }
    true
}

// Marks the id's row; whether there is one and it was not marked before.
fn mark_row(index: &Index, id: u64, marks: &mut [u64]) -> bool
    requires { words_for index.now.head.now.count ≤ length marks.old }
    ensures { Marked (row_by index.now id) marks.old result marks.new }
{
    match row_of(index, id) {
        Some(row) => !add_bit(marks, row),
        None => false,
    }
}

// Writes each id at its row.
#[tactic(auto, using(crate::proofs::Lists::writes_more, crate::proofs::Lists::writes_done))]
fn write_rows(index: &Index, ids: &[u64], rows: &mut [u64])
    requires { index.now.head.now.count ≤ length rows.old }
    ensures { rows.new ≡ with_ids (row_by index.now) ids.now rows.old }
{
    for &id in ids {
        write_row(index, id, rows);
    }
}

// Writes the id at its row, if it has one.
fn write_row(index: &Index, id: u64, rows: &mut [u64])
    requires { index.now.head.now.count ≤ length rows.old }
    ensures { rows.new ≡ with_id (row_by index.now id) id rows.old }
{
    if let Some(row) = row_of(index, id) {
        rows[row as usize] = id;
    }
}

// The id's row, if it has one.
#[tactic(auto, unfolding(crate::specs::Passes::row_by), using(finding::proofs::Told::told_below))]
fn row_of(index: &Index, id: u64) -> Option<u64>
    ensures row { MatchOption result (row_by index.now id ≡ none) (λ row. row_by index.now id ≡ some row) }
    ensures below { IfSome result (λ row. row < index.now.head.now.count) }
{
    match index.find(id) {
        Ok(Some(place)) => Some(place.row),
        _ => None,
    }
}
