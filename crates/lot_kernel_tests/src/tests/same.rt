//! Comparisons that all tests share. An `assert_eq!` costs its function a second of proof, or more in a large one; a
//! call of these costs a tenth of that.
use std::fmt::Debug;
use std::process::Abort;

/// Compares two values, and shows both if they differ.
pub(crate) fn check_same<T: PartialEq + Debug>(rt: &impl Abort, found: &T, wanted: &T) {
    assert_eq!(rt; *found, *wanted);
}

/// Compares two values at an index, row or step, which it shows too.
pub(crate) fn check_same_at<T: PartialEq + Debug>(
    rt: &impl Abort,
    at: &impl Debug,
    found: &T,
    wanted: &T,
) {
    assert_eq!(rt; *found, *wanted, "at {at:?}");
}

/// Ends the test unless the result of a scene's step is the row's.
pub(crate) fn check_step(rt: &impl Abort, at: &str, step: usize, is_so: bool) {
    assert!(rt; is_so, "{at}, step {step}");
}
