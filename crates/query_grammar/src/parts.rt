ghost use Rattle.std.specs.Prelude.{◌≡◌};
ghost use Rattle.std.specs.List.{list_all};
ghost use Rattle.std.specs.Char.{is_ascii_digit};
ghost use Rattle.query_grammar.specs.Values.{count_of, is_count, is_sound_iri};

use rdf_term::Text;

/// The most digits behind LIMIT and OFFSET.
const COUNT_DIGITS: usize = 18;

/// Whether an IRI keeps the rules of this product.
pub fn is_sound_iri(iri: &Text) -> bool
    ensures { result ≡ is_sound_iri iri.now }
{
    iri.is_short() && iri.is_iri_text()
}

fn are_digits(bytes: &[u8]) -> bool
    ensures { result ≡ list_all is_ascii_digit bytes.now }
{
    bytes.iter().all(|byte| byte.is_ascii_digit())
}

/// Whether these digits may stand behind LIMIT and OFFSET.
fn is_count(digits: &[u8]) -> bool
    ensures { result ≡ is_count digits.now }
{
    are_digits(digits) & !digits.is_empty() & (digits.len() <= COUNT_DIGITS)
}

/// The number behind LIMIT or OFFSET, where it has at most 18 digits.
#[tactic(auto, unfolding(crate::specs::Values::count_of))]
pub fn count_of(digits: &str) -> Option<u64>
    ensures { result ≡ count_of digits.now }
{
    if is_count(digits.as_bytes()) {
        match digits.parse::<u64>() {
            Ok(number) => Some(number),
            Err(_) => None,
        }
    } else {
        None
    }
}
