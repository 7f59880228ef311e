ghost use Rattle.std.specs.Prelude.{◌≡◌, IfOk, IsErrOf};
ghost use Rattle.rdf_term.specs.declared.term.Term.{Term};
ghost use Rattle.rdf_term.specs.Validity.{IsValidTerm};
ghost use Rattle.rdf_term.specs.Terms.{IsResource};
ghost use Rattle.nquads_line.specs.Grammar.{IsTerm, IsShortTerm};
ghost use Rattle.nquads_line.specs.Reading.{Gives, resource_at, term_at, whole_term_at};

use crate::characters::decode;
use crate::iri::iri;
use crate::label::label;
use crate::literal::literal;
use crate::size::is_short_term;
use crate::{LineFault, TermTextFault};
use rdf_term::Term;
use std::alloc::Global;
use std::str;

/// An IRI or a blank node, and what stands after it.
pub fn resource(alloc: Global, chars: &[char]) -> Result<(Term, &[char]), LineFault>
    ensures value { Gives (λ x. (x.0, x.1.now)) result (resource_at chars.now) }
    ensures kind { IfOk result (λ x. IsResource x.0) }
{
    if let ['<', ..] = chars {
        let (text, rest) = iri(alloc, chars)?;
        return Ok((Term::Iri(text), rest));
    }
    if chars.is_empty() {
        return Err(LineFault::Bad);
    }
    let (text, rest) = label(alloc, chars)?;
    Ok((Term::Blank(text), rest))
}

/// A term, and what stands after it.
pub fn term(alloc: Global, chars: &[char]) -> Result<(Term, &[char]), LineFault>
    ensures { Gives (λ x. (x.0, x.1.now)) result (term_at chars.now) }
{
    match chars {
        ['"', ..] => literal(alloc, chars),
        _ => resource(alloc, chars),
    }
}

/// A term with nothing after it.
fn whole_term(alloc: Global, chars: &[char]) -> Result<Term, LineFault>
    ensures { Gives (λ x. x) result (whole_term_at chars.now) }
{
    let (term, rest) = term(alloc, chars)?;
    if rest.is_empty() {
        Ok(term)
    } else {
        Err(LineFault::Bad)
    }
}

/// The term of a text in UTF-8 with no space around it (RDF 1.1 N-Triples, section 7).
///
/// `BadTerm` is answered where the text is no term, and `TooLong` where it is one with a part of more
/// than 65,535 bytes.
pub fn read_term(alloc: Global, text: &[u8]) -> Result<Term, TermTextFault>
    ensures ok { IfOk result (λ t. IsTerm text.now t × IsShortTerm t × IsValidTerm t) }
    ensures bad { IsErrOf result TermTextFault.BadTerm → (t : Term) → IsTerm text.now t → ⊥ }
    ensures long { IsErrOf result TermTextFault.TooLong → (t : Term) × IsTerm text.now t × (¬ (IsShortTerm t)) }
{
    let Ok(text) = str::from_utf8(text) else {
        return Err(TermTextFault::BadTerm);
    };
    let mut characters = Vec::new(alloc);
    if decode(text, &mut characters).is_err() {
        return Err(TermTextFault::Memory);
    }
    match whole_term(alloc, characters.as_slice()) {
        Ok(term) => {
            if is_short_term(&term) {
                Ok(term)
            } else {
                Err(TermTextFault::TooLong)
            }
        }
        Err(LineFault::Bad) => Err(TermTextFault::BadTerm),
        Err(LineFault::TooLong) => Err(TermTextFault::TooLong),
        Err(LineFault::Memory) => Err(TermTextFault::Memory),
    }
}
