//! The choice among offers by an Accept value (RFC 9110, section 12.5.1).
ghost use Rattle.std.specs.Prelude.{◌≡◌, ◌++◌, ◌↔◌, All, IfSome, IsNone, List, is_some, option_to_list};
ghost use Rattle.std.specs.List.{list_any, slice_split};
ghost use Rattle.media.specs.MediaRange.{MediaRange};
ghost use Rattle.media.specs.Pieces.{is_comma};
ghost use Rattle.media.specs.Ranges.{range_of, ranges_of};
ghost use Rattle.media.specs.Greatest.{IsFirstGreatest};
ghost use Rattle.media.specs.Choice.{best_of, chosen, quality, quality_among};

use crate::form::Form;
use crate::quality::WHOLE;
use crate::range::range_of;
use crate::specificity::Specificity;

/// How the most specific range so far matches a form.
#[derive(Clone, Copy)]
struct Best {
    specificity: Specificity,
    quality: u16,
}

impl Best {
    /// The best of the ranges so far and an element, where that is a range.
    fn with(self, element: &[u8], form: Form) -> Best
        ensures { (before : List MediaRange) → self ≡ best_of form before
            → result ≡ best_of form (before ++ option_to_list (range_of element.now)) }
    {
        match range_of(element) {
            Some(range) => {
                let specificity = range.specificity(form);
                if specificity.rank() > self.specificity.rank() {
                    Best {
                        specificity,
                        quality: range.quality(),
                    }
                } else {
                    self
                }
            }
            None => self,
        }
    }
}

/// Whether an element of the value is a range.
fn has_range(accept: &[u8]) -> bool
    ensures { result
        ≡ list_any (λ element. is_some (range_of element)) (slice_split is_comma accept.now) }
{
    accept
        .split(|byte| *byte == b',')
        .any(|element| range_of(element).is_some())
}

/// The quality of a form by the ranges of the value.
fn quality_among(accept: &[u8], form: Form) -> u16
    ensures { result ≡ quality_among form (ranges_of accept.now) }
{
    let mut best = Best {
        specificity: Specificity::NoMatch,
        quality: 0,
    };
    for element in accept.split(|byte| *byte == b',') {
        best = best.with(element, form);
    }
    best.quality
}

/// The quality of a form in thousandths; a value without a range counts as `*/*`.
fn quality(accept: &[u8], form: Form) -> u16
    ensures { result ≡ quality accept.now form }
{
    if has_range(accept) {
        quality_among(accept, form)
    } else {
        WHOLE
    }
}

/// The first offer of the greatest quality by the value of an Accept field (RFC 9110, section 12.5.1),
/// and `None` where the quality of each is 0.
///
/// The value is cut at commas, and what isn't a range with at most one well-formed `q` is ignored. A
/// value of which nothing is left counts as `*/*`. The quality of an offer is that of the most specific
/// range that matches it, of the first one where several are equally specific, and 0 where none does.
pub fn choose(accept: &[u8], offers: &[Form]) -> Option<Form>
    ensures value { result ≡ chosen accept.now offers.now }
    ensures none { IsNone result ↔ All (λ form. quality accept.now form ≡ 0) offers.now }
    ensures best { IfSome result (IsFirstGreatest (quality accept.now) offers.now) }
{
    let mut best = None;
    let mut greatest = 0;
    for form in offers {
        let quality = quality(accept, *form);
        if quality > greatest {
            best = Some(*form);
            greatest = quality;
        }
    }
    best
}
