//! Comparisons that the tests share: a call of these costs the prover less than an `assert_eq!` in each test.
use std::fmt::Debug;
use std::process::Abort;

/// Fails unless a value is the expected one; the text says what was read.
pub(crate) fn same<T: Debug + PartialEq>(rt: &impl Abort, what: &str, came: &T, wanted: &T) {
    assert_eq!(rt; *came, *wanted, "{what}");
}

/// Fails unless a value of a row is the expected one; the text says which.
pub(crate) fn same_at<T: Debug + PartialEq>(
    rt: &impl Abort,
    what: &str,
    row: usize,
    came: &T,
    wanted: &T,
) {
    assert_eq!(rt; *came, *wanted, "{what} of row {row}");
}

/// Fails unless the value of a row is the expected one.
pub(crate) fn same_in_row<T: Debug + PartialEq>(rt: &impl Abort, row: usize, came: &T, wanted: &T) {
    assert_eq!(rt; *came, *wanted, "row {row}");
}

/// The case of a row, and the row's number there.
pub(crate) type Place<'a> = (&'a str, usize);

/// Fails unless the value of a row of a case is the expected one.
pub(crate) fn same_in_case<T: Debug + PartialEq>(
    rt: &impl Abort,
    (case, row): Place<'_>,
    came: &T,
    wanted: &T,
) {
    assert_eq!(rt; *came, *wanted, "{case}: row {row}");
}
