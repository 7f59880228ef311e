//! The quality that an element of an Accept value gives (RFC 9110, section 12.4.2).
ghost use Rattle.std.specs.Prelude.{◌≡◌, ◌∷◌, [], ◌++◌, ℕ, List};
ghost use Rattle.media.specs.Quality.{decimals, fraction, in_thousandths, is_q, is_weight, quality_by, quality_of, qvalue, weight_of, weight_value};

use crate::text::{after_first, before_first, same_text, trimmed};

/// The quality 1, in thousandths.
pub const WHOLE: u16 = 1000;

/// What the parameters of an element say of its quality.
#[derive(Clone, Copy)]
enum Weight {
    /// None is named q.
    Absent,
    /// One is, with this quality in thousandths.
    Given(u16),
    /// One is and isn't of the form, or several are.
    Refused,
}

/// Three decimals in thousandths.
fn in_thousandths(tenths: u8, hundredths: u8, thousandths: u8) -> Option<u16>
    ensures { result ≡ in_thousandths tenths hundredths thousandths }
{
    if tenths.is_ascii_digit() && hundredths.is_ascii_digit() && thousandths.is_ascii_digit() {
        let value = |digit: u8| -> u16 { u16::from(digit - b'0') };
        Some(100 * value(tenths) + 10 * value(hundredths) + value(thousandths))
    } else {
        None
    }
}

/// At most three decimals, in thousandths.
fn decimals(digits: &[u8]) -> Option<u16>
    ensures { result ≡ decimals digits.now }
{
    match digits {
        [] => Some(0),
        [tenths] => in_thousandths(*tenths, b'0', b'0'),
        [tenths, hundredths] => in_thousandths(*tenths, *hundredths, b'0'),
        [tenths, hundredths, thousandths] => in_thousandths(*tenths, *hundredths, *thousandths),
        _ => None,
    }
}

/// What stands behind the first digit of a quality, in thousandths.
fn fraction(rest: &[u8]) -> Option<u16>
    ensures { result ≡ fraction rest.now }
{
    match rest {
        [] => Some(0),
        [b'.', digits @ ..] => decimals(digits),
        _ => None,
    }
}

/// A quality in thousandths (qvalue).
#[tactic(auto, unfolding(crate::specs::Quality::qvalue))]
fn qvalue(text: &[u8]) -> Option<u16>
    ensures { result ≡ qvalue text.now }
{
    match text {
        [b'0', rest @ ..] => fraction(rest),
        [b'1', rest @ ..] => match fraction(rest) {
            Some(0) => Some(WHOLE),
            _ => None,
        },
        _ => None,
    }
}

/// Whether this is the name q.
fn is_q(name: &[u8]) -> bool
    ensures { result ≡ is_q name.now }
{
    same_text(name, b"q")
}

/// Whether a parameter is named q; white space behind the name doesn't hide it.
fn is_weight(parameter: &[u8]) -> bool
    ensures { result ≡ is_weight parameter.now }
{
    is_q(trimmed(before_first(parameter, b'=')))
}

/// The quality that a parameter named q gives, where it is of the form.
fn weight_value(parameter: &[u8]) -> Option<u16>
    ensures { result ≡ weight_value parameter.now }
{
    if is_q(before_first(parameter, b'=')) {
        qvalue(after_first(parameter, b'='))
    } else {
        None
    }
}

impl Weight {
    /// What the parameters so far and one more say.
    fn with(self, parameter: &[u8]) -> Weight
        ensures { (before : List (List ℕ)) → self ≡ weight_of before
            → result ≡ weight_of (before ++ parameter.now ∷ []) }
    {
        if !is_weight(parameter) {
            return self;
        }
        match (self, weight_value(parameter)) {
            (Weight::Absent, Some(quality)) => Weight::Given(quality),
            _ => Weight::Refused,
        }
    }

    /// The quality in thousandths; 1 without a parameter q.
    fn quality(self) -> Option<u16>
        ensures { result ≡ quality_by self }
    {
        match self {
            Weight::Absent => Some(WHOLE),
            Weight::Given(quality) => Some(quality),
            Weight::Refused => None,
        }
    }
}

/// The quality that an element's parameters give it, where they are of the form.
pub fn quality_of(element: &[u8]) -> Option<u16>
    ensures { result ≡ quality_of element.now }
{
    let mut weight = Weight::Absent;
    for parameter in element.split(|byte| *byte == b';').skip(1) {
        weight = weight.with(trimmed(parameter));
    }
    weight.quality()
}
