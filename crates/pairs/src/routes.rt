//! Routes that are written from their last link on, and then turned over.
ghost use Rattle.std.specs.Prelude.{◌≡◌, ◌≤◌, reverse, length, take, drop};

/// Turns the first links of a table over: the last of them comes first.
// The count stands beside the table, so that the contract says what stays behind the first links.
pub(crate) fn turn_over(route: &mut [u16], count: usize)
    requires { count ≤ length route.old }
    ensures front { take count route.new ≡ reverse (take count route.old) }
    ensures rest { drop count route.new ≡ drop count route.old }
{
    route[0..count].reverse();
}
