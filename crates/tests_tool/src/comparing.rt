//! Comparisons that the tests share: a call of these costs the prover less than an `assert_eq!` in each test.
use std::fmt::{Debug, Display};
use std::process::Abort;
use std::test::Fail;

/// Fails unless a value is the expected one; the text says what was read.
pub(crate) fn same<T: Debug + PartialEq>(rt: &impl Abort, what: &str, came: &T, wanted: &T) {
    assert_eq!(rt; *came, *wanted, "{what}");
}

/// The same of one of several values; the number says which.
pub(crate) fn same_at<T: Debug + PartialEq>(
    rt: &impl Abort,
    what: &str,
    number: usize,
    came: &T,
    wanted: &T,
) {
    assert_eq!(rt; *came, *wanted, "{what} {number}");
}

/// The same of a text.
pub(crate) fn same_text(rt: &impl Abort, what: &str, came: &str, wanted: &str) {
    assert_eq!(rt; came, wanted, "{what}");
}

/// The same of octets, one of several; the number says which.
pub(crate) fn same_octets(rt: &impl Abort, what: &str, number: usize, came: &[u8], wanted: &[u8]) {
    assert_eq!(rt; came, wanted, "{what} {number}");
}

/// The text of a value is this one.
pub(crate) fn told<D: Display + Drop>(
    rt: &(impl Abort + AllocGlobal),
    value: D,
    text: &str,
) -> Result<(), Fail> {
    let written = format!(in rt.alloc(); "{value}")?;
    same_text(rt, "text", written.as_str(), text);
    Ok(())
}
