//! Laws of elements and ranges, each as the contract of a function that does nothing.
ghost use Rattle.media.specs.Laws.{MostSpecific, OneRange};

/// An element of an Accept value that keeps the grammar of RFC 9110, section 12.5.1, is one range, and
/// what [`choose`](crate::choose) reads as a range is such an element.
pub fn one_range()
    ensures { OneRange }
{}

/// The range that counts for a form matches it, and is the first of the most specific ones.
pub fn most_specific_range()
    ensures { MostSpecific }
{}
