use std::fmt::Debug;
use std::process::Abort;

/// Fails the test unless both are the same.
///
/// A call of it is cheaper to prove than `assert_eq!` in place, which is a branch of its caller.
pub fn same<T: PartialEq + Debug>(rt: &impl Abort, found: &T, wanted: &T) {
    assert_eq!(rt; found, wanted);
}

/// The same, and says in which row of a table it fails.
pub fn same_at<T: PartialEq + Debug, P: Debug>(rt: &impl Abort, found: &T, wanted: &T, at: &P) {
    assert_eq!(rt; found, wanted, "at {at:?}");
}

/// Fails the test, and says where, unless it is so.
pub fn holds(rt: &impl Abort, place: &str, is_so: bool) {
    assert_eq!(rt; is_so, true, "at {place}");
}
