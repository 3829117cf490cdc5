//! Comparisons that the tests share: a call of these costs the prover less than an `assert_eq!` in each test.
use std::alloc::{AllocError, Global};
use std::fmt::{Debug, Display};
use std::process::Abort;

/// Fails unless a value is the expected one; the text says what was read.
pub(crate) fn same<T: Debug + PartialEq>(rt: &impl Abort, what: &str, came: &T, wanted: &T) {
    assert_eq!(rt; *came, *wanted, "{what}");
}

/// Fails unless the value of a row is the expected one.
pub(crate) fn same_in_row<T: Debug + PartialEq>(rt: &impl Abort, row: usize, came: &T, wanted: &T) {
    assert_eq!(rt; *came, *wanted, "row {row}");
}

/// The case of a row, and the row's number there.
pub(crate) type Place<'a> = (&'a str, usize);

/// Fails unless the value of a row of a case is the expected one.
pub(crate) fn same_in_case<T: Debug + PartialEq>(
    rt: &impl Abort,
    (case, row): Place<'_>,
    came: &T,
    wanted: &T,
) {
    assert_eq!(rt; *came, *wanted, "{case}: row {row}");
}

/// Fails unless a value of the item with this number is the expected one; the text says what was read.
pub(crate) fn same_at<T: Debug + PartialEq>(
    rt: &impl Abort,
    what: &str,
    number: u64,
    came: &T,
    wanted: &T,
) {
    assert_eq!(rt; *came, *wanted, "{what} {number}");
}

/// Fails unless a value prints this text.
pub(crate) fn prints<T: Display>(
    rt: &impl Abort,
    alloc: Global,
    value: &T,
    text: &str,
) -> Result<(), AllocError> {
    let printed = format!(in alloc; "{value}")?;
    same(rt, "text", &printed.as_str(), &text);
    Ok(())
}

/// Fails unless a statement holds; the text is the statement.
pub(crate) fn holds(rt: &impl Abort, statement: &str, is_true: bool) {
    assert!(rt; is_true, "{statement}");
}
