//! The format of a sheet: what its bytes mean, and what is proved of that.
#![tactic(auto)]

ghost use Rattle.sheet_format.specs.Theorems.{SingleValued, WrittenMeans, MeansWritten, Total};

/// The same bytes never mean two things.
pub fn single_valued_stands()
    ensures { SingleValued }
{}

/// A lawful sheet's fields, written as bytes, mean those fields and nothing else.
pub fn written_means_stands()
    ensures { WrittenMeans }
{}

/// Bytes that mean a sheet are the writing of its fields.
pub fn means_written_stands()
    ensures { MeansWritten }
{}

/// All bytes mean something.
pub fn total_stands()
    ensures { Total }
{}
