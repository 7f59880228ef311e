ghost use Rattle.std.specs.Prelude.{◌≡◌};
ghost use Rattle.nquads_line.specs.Reading.{Gives, typed, tagged_at, datatype_at, suffix_at, literal_at};

use crate::LineFault;
use crate::escape::body;
use crate::iri::iri;
use crate::quoted::Quoted;
use crate::space::{after, skip};
use crate::tag::tag;
use rdf_term::{Term, Text};
use std::alloc::Global;

/// The literal of a text and a datatype. One typed as `xsd:string` is a plain one (RDF 1.1 Concepts,
/// section 3.3).
fn typed(text: Text, datatype: Text) -> Term
    ensures { result ≡ typed text datatype }
{
    if datatype.is_xsd_string() {
        Term::Plain(text)
    } else {
        Term::Typed(text, datatype)
    }
}

#[tactic(auto, unfolding(crate::specs::Reading::tagged_at))]
fn tagged(alloc: Global, text: Text, chars: &[char]) -> Result<(Term, &[char]), LineFault>
    ensures { Gives (λ x. (x.0, x.1.now)) result (tagged_at text chars.now) }
{
    let (tag, rest) = tag(alloc, chars)?;
    Ok((Term::Tagged(text, tag), rest))
}

#[tactic(auto, unfolding(crate::specs::Reading::datatype_at))]
fn with_datatype(alloc: Global, text: Text, chars: &[char]) -> Result<(Term, &[char]), LineFault>
    ensures { Gives (λ x. (x.0, x.1.now)) result (datatype_at text chars.now) }
{
    let second = after(chars, '^')?;
    let (datatype, rest) = iri(alloc, skip(second))?;
    Ok((typed(text, datatype), rest))
}

/// The literal of a text that stands before `rest`, which `behind` shows after white space.
fn suffix<'a>(
    alloc: Global,
    text: Text,
    rest: &'a [char],
    behind: &'a [char],
) -> Result<(Term, &'a [char]), LineFault>
    ensures { Gives (λ x. (x.0, x.1.now)) result (suffix_at text rest.now behind.now) }
{
    match behind {
        ['@', tag @ ..] => tagged(alloc, text, tag),
        ['^', datatype @ ..] => with_datatype(alloc, text, datatype),
        _ => Ok((Term::Plain(text), rest)),
    }
}

/// A literal, and what stands after it.
#[tactic(auto, unfolding(crate::specs::Reading::literal_at))]
pub fn literal(alloc: Global, chars: &[char]) -> Result<(Term, &[char]), LineFault>
    ensures { Gives (λ x. (x.0, x.1.now)) result (literal_at chars.now) }
{
    let inner = after(chars, '"')?;
    let (text, rest) = body(alloc, Quoted::Literal, inner)?;
    suffix(alloc, text, rest, skip(rest))
}
