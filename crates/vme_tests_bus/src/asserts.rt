//! What the tests assert.
use std::fmt::Debug;
use std::process::Abort;

/// Asserts that two values are the same. It is one function, since each use of `assert_eq!` is
/// expensive to prove.
pub fn assert_same<T: PartialEq + Debug + Copy>(rt: &impl Abort, found: T, want: T) {
    assert_eq!(rt; found, want);
}
