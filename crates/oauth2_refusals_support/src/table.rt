//! Looks up a row in a table.

/// The row of this name, if there is one.
pub fn find<T: Copy>(table: &[(&str, T)], name: &str) -> Option<T> {
    for (key, row) in table {
        if *key == name {
            return Some(*row);
        }
    }
    None
}
