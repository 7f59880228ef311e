ghost use Rattle.std.specs.Prelude.{◌≡◌, IfOk, IsErrOf};
ghost use Rattle.std.specs.declared.option.Option.{Option};
ghost use Rattle.rdf_term.specs.Statement.{Statement};
ghost use Rattle.rdf_term.specs.Terms.{IsGraph};
ghost use Rattle.nquads_line.specs.Grammar.{IsLine, IsShortQuad, IsValidLine};
ghost use Rattle.nquads_line.specs.Reading.{Gives, graph_at, statement_at, line_at};

use crate::characters::decode;
use crate::iri::iri;
use crate::size::is_short_quad;
use crate::space::{after, at_end, skip};
use crate::term::{resource, term};
use crate::{Kind, LineFault};
use rdf_term::{Graph, Quad, Term};
use std::alloc::Global;
use std::str;

/// A graph's label and white space, where the line has one, and what stands after them.
fn graph(alloc: Global, kind: Kind, chars: &[char]) -> Result<(Graph, &[char]), LineFault>
    ensures value { Gives (λ x. (x.0, x.1.now)) result (graph_at kind chars.now) }
    ensures kind { IfOk result (λ x. IsGraph x.0) }
{
    match (kind, chars) {
        (Kind::Triples, _) | (Kind::Quads, [] | ['.', ..]) => Ok((Graph::Absent, chars)),
        (Kind::Quads, _) => {
            let (name, rest) = resource(alloc, chars)?;
            Ok((Graph::Named(name), skip(rest)))
        }
    }
}

/// The quad of a statement with a comment after it, or none.
#[tactic(auto, unfolding(crate::specs::Reading::statement_at))]
fn statement(alloc: Global, kind: Kind, chars: &[char]) -> Result<Quad, LineFault>
    ensures { Gives (λ q. q) result (statement_at kind chars.now) }
{
    let (s, rest) = resource(alloc, chars)?;
    let (p, rest) = iri(alloc, skip(rest))?;
    let (o, rest) = term(alloc, skip(rest))?;
    let (c, rest) = graph(alloc, kind, skip(rest))?;
    let rest = after(rest, '.')?;
    at_end(skip(rest))?;
    match Quad::new(s, Term::Iri(p), o, c) {
        Ok(quad) => Ok(quad),
        Err(_) => Err(LineFault::Bad),
    }
}

/// The quad of a line, where it has one.
fn line_of(alloc: Global, kind: Kind, chars: &[char]) -> Result<Option<Quad>, LineFault>
    ensures { Gives (λ q. q) result (line_at kind chars.now) }
{
    let rest = skip(chars);
    match rest {
        [] => Ok(None),
        ['#', ..] => {
            at_end(rest)?;
            Ok(None)
        }
        _ => Ok(Some(statement(alloc, kind, rest)?)),
    }
}

/// A reader of lines one after another, which keeps the room that their characters take.
#[derive(Drop)]
pub struct LineScanner {
    alloc: Global,
    characters: Vec<char>,
}

impl LineScanner {
    /// A reader that has taken no memory yet.
    pub fn new(alloc: Global) -> LineScanner {
        LineScanner {
            alloc,
            characters: Vec::new(alloc),
        }
    }

    /// The quad of a line, as [`read_line`] gives it.
    pub fn read(&mut self, kind: Kind, line: &[u8]) -> Result<Option<Quad>, LineFault>
        ensures ok { IfOk result (λ q. IsLine kind line.now q × IsShortQuad q × IsValidLine q) }
        ensures bad { IsErrOf result LineFault.Bad → (q : Option Statement) → IsLine kind line.now q → ⊥ }
        ensures long { IsErrOf result LineFault.TooLong → (q : Option Statement) × IsLine kind line.now q × (¬ (IsShortQuad q)) }
    {
        let Ok(text) = str::from_utf8(line) else {
            return Err(LineFault::Bad);
        };
        decode(text, &mut self.characters)?;
        match line_of(self.alloc, kind, self.characters.as_slice())? {
            None => Ok(None),
            Some(quad) => {
                if is_short_quad(&quad) {
                    Ok(Some(quad))
                } else {
                    Err(LineFault::TooLong)
                }
            }
        }
    }
}

/// The quad of a line that is given without its end, and `None` where the line holds white space and
/// a comment at most (RDF 1.1 N-Triples, section 7; RDF 1.1 N-Quads, section 4).
///
/// `Bad` is answered where the bytes are no line of the grammar, also where they are not UTF-8, and
/// `TooLong` where they are one with a part of a term of more than 65,535 bytes.
pub fn read_line(alloc: Global, kind: Kind, line: &[u8]) -> Result<Option<Quad>, LineFault>
    ensures ok { IfOk result (λ q. IsLine kind line.now q × IsShortQuad q × IsValidLine q) }
    ensures bad { IsErrOf result LineFault.Bad → (q : Option Statement) → IsLine kind line.now q → ⊥ }
    ensures long { IsErrOf result LineFault.TooLong → (q : Option Statement) × IsLine kind line.now q × (¬ (IsShortQuad q)) }
{
    LineScanner::new(alloc).read(kind, line)
}
