//! Tables of what names stand for.

/// What this name stands for in a table, if it is there.
pub fn named_in<T: Copy>(table: &[(&str, T)], name: &str) -> Option<T> {
    for named in table {
        // Most names have another length, which says so without a call.
        if named.0.len() == name.len() && named.0 == name {
            return Some(named.1);
        }
    }
    None
}
