//! Reading and writing of lists at a number, whether they have it or not.

/// The item of a number; another value past the last one.
pub(crate) fn at<T: Copy>(items: &[T], number: usize, other: T) -> T {
    match items.get(number) {
        Some(item) => *item,
        None => other,
    }
}

/// Writes the item of a number. Past the last one it does nothing.
pub(crate) fn put<T: Copy>(items: &mut [T], number: usize, item: T) {
    if number < items.len() {
        items[number] = item;
    }
}
