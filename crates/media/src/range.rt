//! The ranges of an Accept value (RFC 9110, section 12.5.1).
ghost use Rattle.std.specs.Prelude.{◌≡◌};
ghost use Rattle.media.specs.Ranges.{is_range_text, is_star, range_of, specificity};

use crate::form::Form;
use crate::quality::quality_of;
use crate::specificity::Specificity;
use crate::text::{after_first, before_first, is_token, same_text, trimmed};
use std::marker::Model;

/// A range: a type and a subtype, each `*` for any, and its quality in thousandths.
#[derive(Drop)]
pub struct MediaRange<'a> {
    main_type: &'a [u8],
    subtype: &'a [u8],
    quality: u16,
}

impl<'a> Model for MediaRange<'a> {
    ghost use Rattle.media.specs.MediaRange.{MediaRange};

    ghost Value = { MediaRange };

    ghost view = { λ r.
        record { main_type = r.main_type.now; subtype = r.subtype.now; quality = r.quality } };
}

fn is_star(text: &[u8]) -> bool
    ensures { result ≡ is_star text.now }
{
    text == b"*".as_slice()
}

/// Whether a range may have this type and this subtype.
#[tactic(auto, unfolding(crate::specs::Ranges::is_range_text))]
fn is_range_text(main_type: &[u8], subtype: &[u8]) -> bool
    ensures { result ≡ is_range_text main_type.now subtype.now }
{
    is_token(main_type) && is_token(subtype) && (is_star(subtype) || !is_star(main_type))
}

/// The range that an element is, where it is of the form.
#[tactic(auto, unfolding(crate::specs::Ranges::range_of, crate::specs::Ranges::range_by))]
pub fn range_of(element: &[u8]) -> Option<MediaRange<'_>>
    ensures { result ≡ range_of element.now }
{
    let range = trimmed(before_first(element, b';'));
    let main_type = before_first(range, b'/');
    let subtype = after_first(range, b'/');
    if !is_range_text(main_type, subtype) {
        return None;
    }
    match quality_of(element) {
        Some(quality) => Some(MediaRange {
            main_type,
            subtype,
            quality,
        }),
        None => None,
    }
}

impl MediaRange<'_> {
    /// The quality in thousandths.
    pub fn quality(&self) -> u16
        ensures { result ≡ self.now.quality }
    {
        self.quality
    }

    /// How the range matches a form.
    #[tactic(auto, unfolding(crate::specs::Ranges::specificity))]
    pub fn specificity(&self, form: Form) -> Specificity
        ensures { result ≡ specificity form self.now }
    {
        if is_star(self.main_type) {
            Specificity::AnyType
        } else if !same_text(self.main_type, form.main_type()) {
            Specificity::NoMatch
        } else if is_star(self.subtype) {
            Specificity::AnySubtype
        } else if same_text(self.subtype, form.subtype()) {
            Specificity::Exact
        } else {
            Specificity::NoMatch
        }
    }
}
