// What a call left in a store.
ghost use Rattle.std.specs.Prelude.{◌≡◌, drop};

// Whether a store has these numbers at its front, and 0 past them.
pub fn is_just(store: &[u64], front: &[u64]) -> bool {
    store
        .strip_prefix(front)
        .is_some_and(|rest| rest.iter().all(|n| *n == 0))
}

// The numbers of a store from a place on, to be written; none, where there are fewer.
pub fn after(store: &mut [u64], at: usize) -> &mut [u64]
    ensures { result.now ≡ drop at store.old }
{
    store.get_mut(at..).unwrap_or(&mut [])
}
