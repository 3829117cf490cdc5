use toml::{Table, Value};

/// The elements of the array that a key has; none if it has no array.
pub(crate) fn elements_at<'a>(table: &'a Table, key: &str) -> &'a [Value] {
    match table.get(key) {
        Some(value) => match value.as_array() {
            Some(values) => values.as_slice(),
            None => &[],
        },
        None => &[],
    }
}

/// How many elements the array has that a key has.
pub(crate) fn count_at(table: &Table, key: &str) -> usize {
    elements_at(table, key).len()
}

/// The table at this place, from 1, of the array that a key has.
pub(crate) fn table_at<'a>(table: &'a Table, key: &str, place: usize) -> Option<&'a Table> {
    if place < 1 {
        return None;
    }
    match elements_at(table, key).get(place - 1) {
        Some(value) => value.as_table(),
        None => None,
    }
}

/// The integer that a key has.
pub(crate) fn integer_at(table: &Table, key: &str) -> Option<i64> {
    match table.get(key) {
        Some(value) => value.as_integer(),
        None => None,
    }
}
