//! Comparisons that the tests share: a call of these costs the prover less than an `assert_eq!` in each test.
use std::fmt::Debug;
use std::process::Abort;

/// Fails unless a value is the expected one; the text says what was read.
pub(crate) fn same<T: Debug + PartialEq>(rt: &impl Abort, what: &str, came: &T, wanted: &T) {
    assert_eq!(rt; *came, *wanted, "{what}");
}

/// Fails unless a value is the expected one; the text names its kind, and the number says which one it is.
pub(crate) fn same_at<T: Debug + PartialEq>(
    rt: &impl Abort,
    what: &str,
    number: usize,
    came: &T,
    wanted: &T,
) {
    assert_eq!(rt; *came, *wanted, "{what} {number}");
}
