use std::fmt::Debug;
use std::process::Abort;

/// Fails the test unless both are the same, and says in which row of a table.
///
/// A call of it is cheaper to prove than `assert_eq!` in place, which is a branch of its caller.
pub fn same_at<T: PartialEq + Debug, P: Debug>(rt: &impl Abort, found: &T, wanted: &T, at: &P) {
    if found != wanted {
        panic!(rt; "assertion failed: {found:?} in place of {wanted:?}, at {at:?}");
    }
}

/// The same of what stands in no table.
pub fn same<T: PartialEq + Debug>(rt: &impl Abort, found: &T, wanted: &T) {
    same_at(rt, found, wanted, &"no row");
}
