// The numbers of a line, by their places. No place is out of range: a line that says too much of itself has zeros there, or parts with nothing in them, and its
// case does not hold.
ghost use Rattle.std.specs.Prelude.{◌≡◌, ◌≢◌, ◌+◌, ◌<◌, ◌≤◌, ◌↔◌, ◌++◌, ℕ, List, [], length, take, drop, IsTrue, IfSome, IfNone};
ghost use Rattle.lists.specs.Lines.{most};

// No line has more numbers: `most` in specs/Lines.antt.
pub const MOST: usize = 8192;

// How many numbers are lent past a line.
const PAST: usize = 8;

// A line: its numbers, and others past them. Calls are lent these too, and may not touch them.
#[derive(Clone, Copy)]
pub struct Line<'a> {
    len: usize,
    lent: &'a [u64],
    ghost fits: { length lent.now ≤ most },
}

impl<'a> Line<'a> {
    ghost use Rattle.lists.specs.Line.{lent_by, count_of, number_at};

    // The line that has so many numbers, at the front of this store.
    pub fn new(store: &'a [u64; MOST], len: usize) -> Line<'a>
        ensures own { count_of result ≡ len }
        ensures lent { lent_by result ≡ take (len + PAST) store.now }
    {
        let end = len.saturating_add(PAST).min(MOST);
        Line {
            len,
            lent: &store[..end],
        }
    }

    pub fn len(self) -> usize
        ensures { result ≡ count_of self.entry }
    {
        self.len
    }

    // The number at a place; 0 past the end.
    #[tactic(auto, unfolding(crate::specs::Line::number_at))]
    pub fn number(self, at: usize) -> u64
        ensures { result ≡ number_at self.entry at }
    {
        self.lent.get(at).copied().unwrap_or(0)
    }

    // The number at a place that says how many of something the line has: never more than a line can have.
    pub fn many(self, at: usize) -> usize
        ensures { result ≤ most }
    {
        self.number(at).min(MOST as u64) as usize
    }

    // n numbers from a place on; none, where there are fewer.
    pub fn part(self, at: usize, n: usize) -> &'a [u64]
        ensures whole { at + n ≤ length (lent_by self.entry)
            → result.now ≡ take n (drop at (lent_by self.entry)) }
        ensures none { length (lent_by self.entry) < at + n → result.now ≡ [] }
    {
        self.past(at).get(..n).unwrap_or(&[])
    }

    // The numbers from a place on; none, where there are fewer.
    pub fn past(self, at: usize) -> &'a [u64]
        ensures { result.now ≡ drop at (lent_by self.entry) }
    {
        self.lent.get(at..).unwrap_or(&[])
    }

    // A copy of the line, and of what is lent past it, at the front of a store.
    pub fn copy_to(self, store: &mut [u64; MOST]) -> &mut [u64]
        ensures { result.now ≡ lent_by self.entry }
    {
        let n = self.lent.len();
        let copy = &mut store[..n];
        copy.copy_from_slice(self.lent);
        copy
    }

    // Whether a store that was a copy of the line is the line still, but for these numbers, which stand from a place on.
    pub fn is_left(self, store: &[u64], at: usize, moved: &[u64]) -> bool
        ensures { let lent = lent_by self.entry in IsTrue result
            ↔ (store.now ≡ take at lent ++ moved.now ++ drop (length moved.now) (drop at lent)) }
    {
        let front = until(self.lent, at);
        let rest = from(self.past(at), moved.len());
        let Some(left) = behind(store, front) else {
            return false;
        };
        let Some(left) = behind(left, moved) else {
            return false;
        };
        let Some(left) = behind(left, rest) else {
            return false;
        };
        left.is_empty()
    }
}

// What a store has behind these numbers; none, where it does not begin with them. They are gone over one by one: `==` of the two parts
// takes longer.
fn behind<'a>(store: &'a [u64], numbers: &[u64]) -> Option<&'a [u64]>
    ensures some { IfSome result (λ left. store.now ≡ numbers.now ++ left.now) }
    ensures none { IfNone result ((left : List ℕ) → store.now ≢ numbers.now ++ left) }
{
    let n = numbers.len();
    let left = store.get(n..)?;
    for i in 0..n {
        if store[i] != numbers[i] {
            return None;
        }
    }
    Some(left)
}

// The numbers before a place; all, where there are fewer.
fn until(numbers: &[u64], at: usize) -> &[u64]
    ensures { result.now ≡ take at numbers.now }
{
    numbers.get(..at).unwrap_or(numbers)
}

// The numbers from a place on; none, where there are fewer.
fn from(numbers: &[u64], at: usize) -> &[u64]
    ensures { result.now ≡ drop at numbers.now }
{
    numbers.get(at..).unwrap_or(&[])
}
