ghost use Rattle.std.specs.Prelude.{◌≡◌, codes, IfOk, MatchOption};
ghost use Rattle.rdf_term.specs.declared.term.Term.{Term as SpecTerm};
ghost use Rattle.serde_json.specs.View.{view};
ghost use Rattle.results_json.specs.Tables.{HasString, IsLiteral, Spells, IsTermValue};

use crate::member::{Member, at_key};
use rdf_term::{Memory, Term, Text, is_xsd_string};
use serde_json::Value;
use std::alloc::Global;

const LANG_STRING: &str = "http://www.w3.org/1999/02/22-rdf-syntax-ns#langString";

/// The literal that an object spells whose type is that of a literal and whose text this is.
fn literal(alloc: Global, value: &Value, text: &str) -> Result<Option<Term>, Memory>
    requires type_is { IsLiteral (view value.now) }
    requires text_is { HasString (view value.now) (codes "value") text.now }
    ensures { IfOk result (λ it. MatchOption it ((t : SpecTerm) → Spells (view value.now) t → ⊥) (λ t. Spells (view value.now) t)) }
{
    let text = Text::from_chars(alloc, text)?;
    match (at_key(value, "xml:lang"), at_key(value, "datatype")) {
        (Member::Absent, Member::Absent) => Ok(Some(Term::Plain(text))),
        (Member::Absent, Member::Text(datatype)) => {
            if is_xsd_string(datatype) {
                Ok(Some(Term::Plain(text)))
            } else {
                Ok(Some(Term::Typed(text, Text::from_chars(alloc, datatype)?)))
            }
        }
        (Member::Text(tag), Member::Absent) => {
            Ok(Some(Term::Tagged(text, Text::from_chars(alloc, tag)?)))
        }
        (Member::Text(tag), Member::Text(datatype)) if datatype == LANG_STRING => {
            Ok(Some(Term::Tagged(text, Text::from_chars(alloc, tag)?)))
        }
        _ => Ok(None),
    }
}

/// The term that an object spells, whether its texts are valid or not.
fn spelled(alloc: Global, value: &Value) -> Result<Option<Term>, Memory>
    ensures { IfOk result (λ it. MatchOption it ((t : SpecTerm) → Spells (view value.now) t → ⊥) (λ t. Spells (view value.now) t)) }
{
    let (Member::Text(words), Member::Text(text)) = (at_key(value, "type"), at_key(value, "value"))
    else {
        return Ok(None);
    };
    if words == "uri" {
        return Ok(Some(Term::Iri(Text::from_chars(alloc, text)?)));
    }
    if words == "bnode" {
        return Ok(Some(Term::Blank(Text::from_chars(alloc, text)?)));
    }
    if words == "literal" || words == "typed-literal" {
        return literal(alloc, value, text);
    }
    Ok(None)
}

/// The term that a value is.
pub fn term_of(alloc: Global, value: &Value) -> Result<Option<Term>, Memory>
    ensures { IfOk result (λ it. MatchOption it ((t : SpecTerm) → IsTermValue (view value.now) t → ⊥) (λ t. IsTermValue (view value.now) t)) }
{
    let Some(term) = spelled(alloc, value)? else {
        return Ok(None);
    };
    if term.is_valid() {
        Ok(Some(term))
    } else {
        Ok(None)
    }
}
