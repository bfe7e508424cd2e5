//! Assertions of tests. Each check is two calls: of a function that is proved here once for all
//! tests, and of `expect`. `assert!` and `assert_eq!` would add a branch to each test.

ghost use Rattle.std.specs.Prelude.{◌≡◌, is_ok};

use std::fmt;
use std::fmt::{Debug, Display, InlineText};

/// Like `assert!`. The check may have a name: a format with values, as in `assert!`, or anything
/// that can be displayed.
#[macro_export]
macro_rules! check {
    ($rt:expr; $holds:expr $(,)?) => {
        $crate::check_holds(stringify!($holds), $holds).expect(&$rt, "check failed")
    };
    ($rt:expr; $holds:expr, $format:literal $($values:tt)*) => {
        $crate::check_holds(format_args!($format $($values)*), $holds).expect(&$rt, "check failed")
    };
    ($rt:expr; $holds:expr, $name:expr $(,)?) => {
        $crate::check_holds($name, $holds).expect(&$rt, "check failed")
    };
}

/// Like `assert_eq!`, for two values of one type. The check may have a name, as in `check!`.
#[macro_export]
macro_rules! check_eq {
    ($rt:expr; $found:expr, $wanted:expr $(,)?) => {
        $crate::check_equal(stringify!($found), &$found, &$wanted).expect(&$rt, "check failed")
    };
    ($rt:expr; $found:expr, $wanted:expr, $format:literal $($values:tt)*) => {
        $crate::check_equal(format_args!($format $($values)*), &$found, &$wanted)
            .expect(&$rt, "check failed")
    };
    ($rt:expr; $found:expr, $wanted:expr, $name:expr $(,)?) => {
        $crate::check_equal($name, &$found, &$wanted).expect(&$rt, "check failed")
    };
}

/// The report of a failed check: its name and its values, cut to 4,096 bytes, which hold two
/// pictures of a path.
#[derive(Drop)]
pub struct Failed {
    text: InlineText<4096>,
}

impl Failed {
    fn of<D: Display + Drop>(message: D) -> Self {
        Failed {
            text: InlineText::of(message),
        }
    }
}

impl Debug for Failed {
    fn fmt<W: fmt::Write>(&self, f: &mut fmt::Formatter<W>) -> fmt::Result {
        f.write_str(self.text.as_str())
    }
}

/// Fails with this name, unless `holds`.
pub fn check_holds<N: Display + Drop>(name: N, holds: bool) -> Result<(), Failed>
    ensures { is_ok result ≡ holds }
{
    if holds { Ok(()) } else { Err(Failed::of(name)) }
}

/// Fails with this name and both values, unless they are equal.
pub fn check_equal<N: Display + Drop, T: PartialEq + Debug>(
    name: N,
    found: &T,
    wanted: &T,
) -> Result<(), Failed>
    ensures { is_ok result ≡ T.eq found.now wanted.now }
{
    if *found == *wanted {
        Ok(())
    } else {
        Err(Failed::of(format_args!("{name}\n  found: {found:?}\n wanted: {wanted:?}")))
    }
}
