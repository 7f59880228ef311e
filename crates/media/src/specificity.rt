//! How specific ranges are.
ghost use Rattle.std.specs.Prelude.{◌≡◌};
ghost use Rattle.media.specs.Ranges.{rank_of};

/// How a range matches a form (RFC 9110, section 12.5.1).
#[derive(Clone, Copy)]
pub enum Specificity {
    /// It doesn't match.
    NoMatch,
    /// It names neither type nor subtype: `*/*`.
    AnyType,
    /// It names the type: `type/*`.
    AnySubtype,
    /// It names the type and the subtype.
    Exact,
}

impl Specificity {
    /// A number that is greater for a more specific range, and 0 without a match.
    pub fn rank(self) -> u8
        ensures { result ≡ rank_of self }
    {
        match self {
            Specificity::NoMatch => 0,
            Specificity::AnyType => 1,
            Specificity::AnySubtype => 2,
            Specificity::Exact => 3,
        }
    }
}
