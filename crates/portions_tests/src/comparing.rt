//! Comparisons for tests. Each is proved once, and a call of it in a tenth of the time of the macro.
ghost use Rattle.std.specs.Prelude.{IsTrue};

use std::fmt::Debug;
use std::process::Abort;

/// Ends the test unless the two are the same.
pub fn same<T: PartialEq + Debug + Drop>(rt: &impl Abort, found: T, wanted: T) {
    assert_eq!(rt; found, wanted);
}

/// Ends the test unless this is true.
pub fn holds(rt: &impl Abort, is_true: bool)
    ensures { IsTrue is_true }
{
    assert!(rt; is_true);
}
