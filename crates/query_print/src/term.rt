ghost use Rattle.std.specs.Prelude.{◌≡◌, ◌++◌, OnOk, codes};
ghost use Rattle.std.specs.Str.{chars};
ghost use Rattle.std.specs.List.{flat_map};
ghost use Rattle.rdf_term.specs.Canonical.{escaped, quoted, term_text};

use crate::word::put_text;
use rdf_term::{Memory, Term, Text};

/// Appends a character of a literal's text.
#[tactic(auto, using(crate::proofs::WordLemmas::escapes))]
fn put_character(character: char, out: &mut Text) -> Result<(), Memory>
    ensures { OnOk result (out.new ≡ out.old ++ escaped character) }
{
    match character {
        '"' => out.append("\\\""),
        '\\' => out.append("\\\\"),
        '\n' => out.append("\\n"),
        '\r' => out.append("\\r"),
        _ => out.push(character),
    }
}

/// Appends a literal's text, with its escapes.
fn put_escaped(text: &str, out: &mut Text) -> Result<(), Memory>
    ensures { OnOk result (out.new ≡ out.old ++ flat_map escaped (chars text.now)) }
{
    for character in text.chars() {
        put_character(character, out)?;
    }
    Ok(())
}

/// Appends a literal's text between its marks.
fn put_quoted(text: &Text, out: &mut Text) -> Result<(), Memory>
    ensures { OnOk result (out.new ≡ out.old ++ quoted text.now) }
{
    out.push('"')?;
    put_escaped(text.as_str(), out)?;
    out.push('"')
}

/// Appends an IRI between its marks.
fn put_iri(iri: &Text, out: &mut Text) -> Result<(), Memory>
    ensures { OnOk result (out.new ≡ out.old ++ (codes "<" ++ iri.now ++ codes ">")) }
{
    out.push('<')?;
    put_text(iri, out)?;
    out.push('>')
}

/// Appends a term's canonical text (RDF 1.1 N-Triples, section 4).
pub fn put_term(term: &Term, out: &mut Text) -> Result<(), Memory>
    ensures { OnOk result (out.new ≡ out.old ++ term_text term.now) }
{
    match term {
        Term::Iri(iri) => put_iri(iri, out),
        Term::Blank(label) => {
            out.append("_:")?;
            put_text(label, out)
        }
        Term::Plain(text) => put_quoted(text, out),
        Term::Tagged(text, tag) => {
            put_quoted(text, out)?;
            out.push('@')?;
            put_text(tag, out)
        }
        Term::Typed(text, datatype) => {
            put_quoted(text, out)?;
            out.append("^^")?;
            put_iri(datatype, out)
        }
    }
}
