//! Comparisons for tests. Each is proved once, and a call of it in a tenth of the time of the macro.
ghost use Rattle.std.specs.Prelude.{IsTrue};

use std::fmt::{Debug, Display};
use std::process::Abort;

/// Ends the test unless the two are the same.
pub fn same<T: PartialEq + Debug + Drop>(rt: &impl Abort, found: T, wanted: T) {
    assert_eq!(rt; found, wanted);
}

/// Ends the test unless the two are the same, and says where.
pub fn same_at<T: PartialEq + Debug + Drop, P: Display + Drop>(
    rt: &impl Abort,
    found: T,
    wanted: T,
    place: P,
) {
    assert_eq!(rt; found, wanted, "at {place}");
}

/// Ends the test unless this is true.
pub fn holds(rt: &impl Abort, is_true: bool)
    ensures { IsTrue is_true }
{
    assert!(rt; is_true);
}

/// Ends the test unless this is true, and says where.
pub fn holds_at<P: Display + Drop>(rt: &impl Abort, is_true: bool, place: P)
    ensures { IsTrue is_true }
{
    assert!(rt; is_true, "at {place}");
}
