// Parts of the stores that the calls are given.

// The first n places, or all, where there are fewer.
pub fn first<T>(store: &[T], n: usize) -> &[T] {
    store.get(..n).unwrap_or(store)
}

// The same, to be written.
pub fn first_mut<T>(store: &mut [T], n: usize) -> &mut [T] {
    let places = n.min(store.len());
    &mut store[..places]
}
