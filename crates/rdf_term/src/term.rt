ghost use Rattle.std.specs.Prelude.{◌≡◌, ◌↔◌, IsTrue, IfOk, encode_utf8_all, refl};
ghost use Rattle.std.specs.Ordering.{eq_by_cmp, as_partial_cmp};
ghost use Rattle.std.specs.Cmp.{partial_equiv_from_equiv, partial_order_from_total};
ghost use Rattle.std.proofs.lemmas.Cmp.{eq_by_cmp_equiv};
ghost use Rattle.rdf_term.specs.Terms.{kind, first, second, IsResource, IsIri, plain_text, iri_text};
ghost use Rattle.rdf_term.specs.Order.{term_cmp};
ghost use Rattle.rdf_term.specs.OrderLaws.{term_total};
ghost use Rattle.rdf_term.specs.Validity.{is_valid, IsValidTerm};

use crate::{Duplicate, Memory, Text};
use std::alloc::Global;
use std::cmp::Ordering;

/// A term of RDF 1.1: an IRI, a blank node or a literal.
///
/// Terms are ordered by kind, in the order of the variants, then by the first text, then by the
/// second.
#[derive(Debug)]
pub enum Term {
    /// An IRI's text.
    Iri(Text),
    /// A blank node's label, without `_:`.
    Blank(Text),
    /// A literal's text; its datatype is `xsd:string`.
    Plain(Text),
    /// A literal's text and its language tag, without `@`.
    Tagged(Text, Text),
    /// A literal's text and its datatype.
    Typed(Text, Text),
}

impl Term {
    fn kind(&self) -> u8
        ensures { result ≡ kind self.now }
    {
        match self {
            Term::Iri(_) => 0,
            Term::Blank(_) => 1,
            Term::Plain(_) => 2,
            Term::Tagged(_, _) => 3,
            Term::Typed(_, _) => 4,
        }
    }

    fn first(&self) -> &str
        ensures { result.now ≡ encode_utf8_all (first self.now) }
    {
        match self {
            Term::Iri(text) => text.as_str(),
            Term::Blank(text) => text.as_str(),
            Term::Plain(text) => text.as_str(),
            Term::Tagged(text, _) => text.as_str(),
            Term::Typed(text, _) => text.as_str(),
        }
    }

    fn second(&self) -> &str
        ensures { result.now ≡ encode_utf8_all (second self.now) }
    {
        match self {
            Term::Iri(_) => "",
            Term::Blank(_) => "",
            Term::Plain(_) => "",
            Term::Tagged(_, tag) => tag.as_str(),
            Term::Typed(_, datatype) => datatype.as_str(),
        }
    }

    /// Whether the term is an IRI or a blank node.
    pub fn is_resource(&self) -> bool
        ensures { IsTrue result ↔ IsResource self.now }
    {
        matches!(self, Term::Iri(_) | Term::Blank(_))
    }

    /// Whether the term is an IRI.
    pub fn is_iri(&self) -> bool
        ensures { IsTrue result ↔ IsIri self.now }
    {
        matches!(self, Term::Iri(_))
    }

    /// The text of a plain literal; any other term is handed back as it is.
    pub fn into_plain(self) -> Result<Text, Term>
        ensures { result ≡ plain_text self }
    {
        match self {
            Term::Plain(text) => Ok(text),
            other => Err(other),
        }
    }

    /// The text of an IRI; any other term is handed back as it is.
    pub fn into_iri(self) -> Result<Text, Term>
        ensures { result ≡ iri_text self }
    {
        match self {
            Term::Iri(text) => Ok(text),
            other => Err(other),
        }
    }

    /// Whether the term is valid: its texts meet the grammar of RDF 1.1 N-Triples, section 7, and
    /// this product's own rules. An IRI has a scheme, no part is over 65,535 bytes, and no literal
    /// is typed as `xsd:string`. It takes no memory.
    pub fn is_valid(&self) -> bool
        ensures value { result ≡ is_valid self.now }
        ensures fact { IsTrue result ↔ IsValidTerm self.now }
    {
        match self {
            Term::Iri(iri) => iri.is_short() && iri.is_iri_text(),
            Term::Blank(label) => label.is_short() && label.is_label(),
            Term::Plain(text) => text.is_short(),
            Term::Tagged(text, tag) => text.is_short() && tag.is_short() && tag.is_tag(),
            Term::Typed(text, datatype) => {
                text.is_short()
                    && datatype.is_short()
                    && datatype.is_iri_text()
                    && !datatype.is_xsd_string()
            }
        }
    }

    /// The order of terms.
    pub(crate) fn order(&self, other: &Term) -> Ordering
        ensures { result ≡ term_cmp self.now other.now }
    {
        self.kind()
            .cmp(&other.kind())
            .then_with(|| self.first().cmp(other.first()))
            .then_with(|| self.second().cmp(other.second()))
    }
}

// By hand: a derived drop is expanded, down to each text, wherever a term is let go.
impl Drop for Term {
    fn drop(self) {
        match self {
            Term::Iri(text) => drop(text),
            Term::Blank(text) => drop(text),
            Term::Plain(text) => drop(text),
            Term::Tagged(text, tag) => {
                drop(text);
                drop(tag);
            }
            Term::Typed(text, datatype) => {
                drop(text);
                drop(datatype);
            }
        }
    }
}

impl Duplicate for Term {
    fn copy(&self, alloc: Global) -> Result<Term, Memory> {
        Ok(match self {
            Term::Iri(text) => Term::Iri(text.copy(alloc)?),
            Term::Blank(text) => Term::Blank(text.copy(alloc)?),
            Term::Plain(text) => Term::Plain(text.copy(alloc)?),
            Term::Tagged(text, tag) => Term::Tagged(text.copy(alloc)?, tag.copy(alloc)?),
            Term::Typed(text, datatype) => Term::Typed(text.copy(alloc)?, datatype.copy(alloc)?),
        })
    }
}

impl PartialEq for Term {
    ghost eq = { eq_by_cmp term_cmp };

    ghost laws = { partial_equiv_from_equiv (eq_by_cmp_equiv term_total) };

    fn eq(&self, other: &Term) -> bool
        ensures value { result ≡ eq_by_cmp term_cmp self.now other.now }
        ensures same { IsTrue result ↔ (self.now ≡ other.now) }
    {
        self.order(other).is_eq()
    }
}

impl Eq for Term {
    ghost laws = { eq_by_cmp_equiv term_total };
}

impl PartialOrd for Term {
    ghost partial_cmp = { as_partial_cmp term_cmp };

    ghost laws = { partial_order_from_total term_total };

    fn partial_cmp(&self, other: &Term) -> Option<Ordering> {
        Some(self.order(other))
    }
}

impl Ord for Term {
    ghost cmp = { term_cmp };

    ghost total = { term_total };

    ghost matches_partial_cmp = { λ x y. refl };

    ghost matches_eq = { λ x y. refl };

    fn cmp(&self, other: &Term) -> Ordering {
        self.order(other)
    }
}
