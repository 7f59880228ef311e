ghost use Rattle.std.specs.Prelude.{◌≡◌, ◌++◌, IsTrue, IfOk};
ghost use Rattle.query_model.specs.declared.query.Slot.TheVariants as slot;
ghost use Rattle.std.specs.List.{list_all};
ghost use Rattle.std.specs.Option.{option_copied};
ghost use Rattle.std.specs.Char.{is_ascii};
ghost use Rattle.query_grammar.specs.Classes.{is_label};
ghost use Rattle.query_grammar.specs.Values.{count_in, iri_refusal, iri_slot, named, number_type, part_refusal, slot_of, text_of, typed, unless, with_tag, with_type, xsd_boolean};

use crate::fault::Kind;
use crate::parts::{count_of, is_sound_iri};
use crate::prefixes::Prefixes;
use query_model::Slot;
use query_tokens::{Number, Token};
use rdf_term::{Duplicate, Memory, Term, Text};
use std::alloc::Global;

/// The IRI that `a` stands for.
const RDF_TYPE: &str = "http://www.w3.org/1999/02/22-rdf-syntax-ns#type";

const XSD_BOOLEAN: &str = "http://www.w3.org/2001/XMLSchema#boolean";

/// A text of ASCII characters.
fn constant(alloc: Global, text: &str) -> Result<Text, Memory>
    requires { IsTrue (list_all is_ascii text.now) }
    ensures { IfOk result (λ it. it ≡ text.now) }
{
    Text::from_chars(alloc, text)
}

/// The datatype of a number.
#[tactic(auto, unfolding(crate::specs::Values::number_type))]
fn number_type(alloc: Global, kind: Number) -> Result<Text, Memory>
    ensures { IfOk result (λ it. it ≡ number_type kind) }
{
    match kind {
        Number::Digits | Number::Integer => {
            constant(alloc, "http://www.w3.org/2001/XMLSchema#integer")
        }
        Number::Decimal => constant(alloc, "http://www.w3.org/2001/XMLSchema#decimal"),
        Number::Double => constant(alloc, "http://www.w3.org/2001/XMLSchema#double"),
    }
}

/// The first text followed by the second.
fn joined(alloc: Global, first: &Text, second: &Text) -> Result<Text, Memory>
    ensures { IfOk result (λ it. it ≡ first.now ++ second.now) }
{
    let mut text = first.copy(alloc)?;
    text.append(second.as_str())?;
    Ok(text)
}

/// The IRI that a prefixed name stands for, where its prefix was declared.
fn named(alloc: Global, namespace: Option<&Text>, local: &Text) -> Result<Option<Text>, Memory>
    ensures { IfOk result (λ iri. iri ≡ named (option_copied namespace.entry) local.now) }
{
    match namespace {
        None => Ok(None),
        Some(namespace) => Ok(Some(joined(alloc, namespace, local)?)),
    }
}

/// The slot of an IRI; one without text where there is none.
fn iri_slot(alloc: Global, iri: Option<Text>) -> Slot
    ensures { result ≡ iri_slot iri }
{
    match iri {
        None => Slot::Fixed(Term::Iri(Text::new(alloc))),
        Some(iri) => Slot::Fixed(Term::Iri(iri)),
    }
}

fn namespace_slot(alloc: Global, namespace: Option<&Text>) -> Result<Slot, Memory>
    ensures { IfOk result (λ slot. slot ≡ iri_slot (option_copied namespace.entry)) }
{
    Ok(match namespace {
        None => iri_slot(alloc, None),
        Some(iri) => iri_slot(alloc, Some(iri.copy(alloc)?)),
    })
}

/// A literal of the datatype xsd:boolean.
fn boolean(alloc: Global, word: &str) -> Result<Slot, Memory>
    requires { IsTrue (list_all is_ascii word.now) }
    ensures { IfOk result (λ slot. slot ≡ Slot.Fixed (Term.Typed word.now xsd_boolean)) }
{
    let text = constant(alloc, word)?;
    let datatype = constant(alloc, XSD_BOOLEAN)?;
    Ok(Slot::Fixed(Term::Typed(text, datatype)))
}

/// A literal of a number's datatype.
fn numeric(alloc: Global, kind: Number, text: &Text) -> Result<Slot, Memory>
    ensures { IfOk result (λ slot. slot ≡ Slot.Fixed (Term.Typed text.now (number_type kind))) }
{
    let datatype = number_type(alloc, kind)?;
    Ok(Slot::Fixed(Term::Typed(text.copy(alloc)?, datatype)))
}

/// The slot of a token by itself.
#[tactic(auto, unfolding(crate::specs::Values::slot_of))]
pub fn slot_of(alloc: Global, prefixes: &Prefixes, token: &Token) -> Result<Slot, Memory>
    ensures { IfOk result (λ slot. slot ≡ slot_of prefixes.now token.now) }
{
    match token {
        Token::A => Ok(Slot::Fixed(Term::Iri(constant(alloc, RDF_TYPE)?))),
        Token::True => boolean(alloc, "true"),
        Token::False => boolean(alloc, "false"),
        Token::Var(name) => Ok(Slot::Var(name.copy(alloc)?)),
        Token::Label(label) => Ok(Slot::Blank(label.copy(alloc)?)),
        Token::Str(text) => Ok(Slot::Fixed(Term::Plain(text.copy(alloc)?))),
        Token::Number(kind, text) => numeric(alloc, *kind, text),
        Token::Iri(iri) => Ok(Slot::Fixed(Term::Iri(iri.copy(alloc)?))),
        Token::Namespace(prefix) => namespace_slot(alloc, prefixes.namespace(prefix)),
        Token::Name(prefix, local) => {
            let iri = named(alloc, prefixes.namespace(prefix), local)?;
            Ok(iri_slot(alloc, iri))
        }
        _ => Ok(iri_slot(alloc, None)),
    }
}

/// The literal of a text and a datatype.
#[tactic(auto, unfolding(crate::specs::Values::typed))]
fn typed(text: Text, datatype: Text) -> Term
    ensures { result ≡ typed text datatype }
{
    if datatype.is_xsd_string() {
        Term::Plain(text)
    } else {
        Term::Typed(text, datatype)
    }
}

/// A string with a language tag.
pub fn with_tag(slot: Slot, tag: Text) -> Slot
    ensures { result ≡ with_tag slot tag }
{
    match slot {
        Slot::Fixed(term) => match term.into_plain() {
            Ok(text) => Slot::Fixed(Term::Tagged(text, tag)),
            Err(term) => Slot::Fixed(term),
        },
        other => other,
    }
}

/// A plain literal with a datatype, where that is an IRI; any other term as it is.
fn typed_by(term: Term, datatype: Term) -> Term
    ensures { slot.Fixed result ≡ with_type (slot.Fixed term) (slot.Fixed datatype) }
{
    match (term.into_plain(), datatype.into_iri()) {
        (Ok(text), Ok(datatype)) => typed(text, datatype),
        (Ok(text), Err(_)) => Term::Plain(text),
        (Err(term), _) => term,
    }
}

/// A string with a datatype.
pub fn with_type(slot: Slot, datatype: Slot) -> Slot
    ensures { result ≡ with_type slot datatype }
{
    match (slot, datatype) {
        (Slot::Fixed(term), Slot::Fixed(datatype)) => Slot::Fixed(typed_by(term, datatype)),
        (slot, _) => slot,
    }
}

/// The token that a prefixed name stands for, its IRI, where its prefix was declared; any other token
/// as it is.
#[tactic(auto, unfolding(crate::specs::Values::slot_of, crate::specs::Values::part_refusal))]
pub fn spelled_out(alloc: Global, prefixes: &Prefixes, token: Token) -> Result<Token, Memory>
    ensures slot { IfOk result (λ t. slot_of prefixes.now t ≡ slot_of prefixes.now token) }
    ensures refusal { IfOk result (λ t. part_refusal prefixes.now t ≡ part_refusal prefixes.now token) }
    ensures label { IfOk result (λ t. is_label t ≡ is_label token) }
{
    match token {
        Token::Namespace(prefix) => match prefixes.namespace(&prefix) {
            None => Ok(Token::Namespace(prefix)),
            Some(iri) => Ok(Token::Iri(iri.copy(alloc)?)),
        },
        Token::Name(prefix, local) => {
            match named(alloc, prefixes.namespace(&prefix), &local)? {
                None => Ok(Token::Name(prefix, local)),
                Some(iri) => Ok(Token::Iri(iri)),
            }
        }
        other => Ok(other),
    }
}

/// Refused as unsupported, unless it is sound.
pub fn unless(sound: bool, kind: Kind) -> Option<Kind>
    ensures { result ≡ unless sound kind }
{
    if sound { None } else { Some(kind) }
}

#[tactic(auto, unfolding(crate::specs::Values::iri_refusal))]
fn iri_refusal(iri: Option<&Text>) -> Option<Kind>
    ensures { result ≡ iri_refusal (option_copied iri.entry) }
{
    match iri {
        None => Some(Kind::UnknownPrefix),
        Some(iri) => unless(is_sound_iri(iri), Kind::Unsupported),
    }
}

/// Why a token is refused wherever it stands.
#[tactic(auto, unfolding(crate::specs::Values::part_refusal))]
pub fn part_refusal(
    alloc: Global,
    prefixes: &Prefixes,
    token: &Token,
) -> Result<Option<Kind>, Memory>
    ensures { IfOk result (λ kind. kind ≡ part_refusal prefixes.now token.now) }
{
    Ok(match token {
        Token::Iri(iri) => iri_refusal(Some(iri)),
        Token::Namespace(prefix) => iri_refusal(prefixes.namespace(prefix)),
        Token::Name(prefix, local) => {
            iri_refusal(named(alloc, prefixes.namespace(prefix), local)?.as_ref())
        }
        Token::Label(text) => unless(text.is_short(), Kind::Unsupported),
        Token::Str(text) => unless(text.is_short(), Kind::Unsupported),
        Token::Tag(text) => unless(text.is_short(), Kind::Unsupported),
        Token::Number(_, text) => unless(text.is_short(), Kind::Unsupported),
        Token::Quotes => Some(Kind::Unsupported),
        _ => None,
    })
}

/// The text that a token holds.
#[tactic(auto, unfolding(crate::specs::Values::text_of))]
pub fn text_of(alloc: Global, token: &Token) -> Result<Text, Memory>
    ensures { IfOk result (λ text. text ≡ text_of token.now) }
{
    match token {
        Token::Namespace(text) => text.copy(alloc),
        Token::Iri(text) => text.copy(alloc),
        Token::Var(text) => text.copy(alloc),
        Token::Str(text) => text.copy(alloc),
        Token::Tag(text) => text.copy(alloc),
        Token::Number(_, text) => text.copy(alloc),
        _ => Ok(Text::new(alloc)),
    }
}

/// The number that a token writes, where it has at most 18 digits.
#[tactic(auto, unfolding(crate::specs::Values::text_of, crate::specs::Values::count_in))]
pub fn count_in(token: &Token) -> Option<u64>
    ensures { result ≡ count_in token.now }
{
    match token {
        Token::Namespace(text) => count_of(text.as_str()),
        Token::Iri(text) => count_of(text.as_str()),
        Token::Var(text) => count_of(text.as_str()),
        Token::Str(text) => count_of(text.as_str()),
        Token::Tag(text) => count_of(text.as_str()),
        Token::Number(_, text) => count_of(text.as_str()),
        _ => count_of(""),
    }
}
