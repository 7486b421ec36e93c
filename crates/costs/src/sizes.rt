//! Sizes of whole numbers, and the limit that they are kept within.
ghost use Rattle.std.specs.Prelude.{◌≡◌, ◌+◌, nat_le, unsigned_abs};
ghost use Rattle.costs.specs.Costs.{limit};

/// The largest size that a worked out value may have.
const LIMIT: u64 = 1 << 40;

/// The number without its sign.
pub(crate) fn size(number: i64) -> u64
    ensures { result ≡ unsigned_abs number }
{
    number.unsigned_abs()
}

/// Whether a size is within the limit.
pub(crate) fn within(size: u64) -> bool
    ensures { result ≡ nat_le size limit }
{
    size <= LIMIT
}

/// Whether two sizes together are within the limit.
pub(crate) fn within_together(first: u64, second: u64) -> bool
    ensures { result ≡ nat_le (first + second) limit }
{
    first <= LIMIT && second <= LIMIT - first
}
