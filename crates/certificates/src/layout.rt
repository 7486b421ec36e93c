//! The numbers of the format.

// The kind of a certificate's record.
pub(crate) const KIND: u16 = 16;
// The number of bytes of a record's head.
pub(crate) const HEAD: usize = 4;
// The number of a payload's bytes before its routes.
pub(crate) const NUMBERS: usize = 18;
