ghost use Rattle.std.specs.Prelude.{◌≡◌, ◌≤◌, ◌++◌, length, OnOk, OnErr, codes, encode_utf8_all, MatchResult};
ghost use Rattle.rdf_term.specs.Canonical.{term_text, canonical_line, canonical_triple};
ghost use Rattle.rdf_term.specs.Writing.{Appends, Extends};
ghost use Rattle.nquads.specs.Written.{document_text};
ghost use Rattle.nquads.specs.Steps.{IsNextTriple};
ghost use Rattle.nquads_line.specs.Parts.{triple_parts, graph_part};
ghost use Rattle.nquads_line.specs.declared.kind.Kind.TheVariants.{Triples as AsTriples, Quads as AsQuads};

use crate::Kind;
use nquads_line::write_term;
use rdf_term::{Bytes, Graph, Memory, Quad, Quads, Term};

/// Appends a part of a line and the space after it.
fn put_part(term: &Term, out: &mut Bytes) -> Result<(), Memory>
    ensures { Appends result out.old.items out.new.items (encode_utf8_all (term_text term.now ++ codes " ")) }
{
    write_term(term, out)?;
    out.append(b" ")
}

/// Appends the three parts of a quad's triple.
fn put_parts(quad: &Quad, out: &mut Bytes) -> Result<(), Memory>
    ensures { Appends result out.old.items out.new.items (encode_utf8_all (triple_parts quad.now)) }
{
    put_part(quad.s(), out)?;
    put_part(quad.p(), out)?;
    put_part(quad.o(), out)
}

/// Appends the name of a graph, where there is one, and the space after it.
fn put_graph(graph: &Graph, out: &mut Bytes) -> Result<(), Memory>
    ensures { Appends result out.old.items out.new.items (encode_utf8_all (graph_part graph.now)) }
{
    match graph {
        Graph::Absent => Ok(()),
        Graph::Named(name) => put_part(name, out),
    }
}

/// Appends the canonical line of a quad.
fn put_quad(quad: &Quad, out: &mut Bytes) -> Result<(), Memory>
    ensures { Appends result out.old.items out.new.items (encode_utf8_all (canonical_line quad.now)) }
{
    put_parts(quad, out)?;
    put_graph(quad.c(), out)?;
    out.append(b".\n")
}

/// Appends the canonical line of a quad without its graph.
fn put_triple(quad: &Quad, out: &mut Bytes) -> Result<(), Memory>
    ensures { Appends result out.old.items out.new.items (encode_utf8_all (canonical_triple quad.now)) }
{
    put_parts(quad, out)?;
    out.append(b".\n")
}

/// Appends the canonical lines of quads.
fn put_quads(quads: &[Quad], out: &mut Bytes) -> Result<(), Memory>
    ensures { Appends result out.old.items out.new.items (encode_utf8_all (document_text AsQuads quads.now)) }
{
    for quad in quads {
        put_quad(quad, out)?;
    }
    Ok(())
}

/// Appends the line of a triple, unless it equals the line that begins at `last`. It answers where
/// the last line now begins.
fn put_next_triple(quad: &Quad, last: usize, out: &mut Bytes) -> Result<usize, Memory>
    requires { last ≤ length out.old.items }
    ensures { MatchResult result
        (λ start. IsNextTriple (encode_utf8_all (canonical_triple quad.now)) last out.old.items start out.new.items)
        (λ _. Extends out.old.items out.new.items) }
{
    let start = out.len();
    put_triple(quad, out)?;
    let bytes = out.as_slice();
    if &bytes[start..] == &bytes[last..start] {
        out.truncate(start);
        return Ok(last);
    }
    Ok(start)
}

/// Appends the canonical lines of quads without their graphs, equal neighbouring lines once.
fn put_triples(quads: &[Quad], out: &mut Bytes) -> Result<(), Memory>
    ensures { Appends result out.old.items out.new.items (encode_utf8_all (document_text AsTriples quads.now)) }
{
    let mut last = out.len();
    for quad in quads {
        last = put_next_triple(quad, last, out)?;
    }
    Ok(())
}

/// Appends the text of a document of this kind.
fn put_document(quads: &[Quad], kind: Kind, out: &mut Bytes) -> Result<(), Memory>
    ensures { Appends result out.old.items out.new.items (encode_utf8_all (document_text kind quads.now)) }
{
    match kind {
        Kind::Quads => put_quads(quads, out),
        Kind::Triples => put_triples(quads, out),
    }
}

/// Appends the canonical lines of quads. Triples have no graphs, and equal neighbouring lines are
/// written once. Without memory the buffer's bytes stay as they were.
pub fn write_quads(quads: &Quads, kind: Kind, out: &mut Bytes) -> Result<(), Memory>
    ensures ok { OnOk result (out.new.items ≡ out.old.items ++ encode_utf8_all (document_text kind quads.now)) }
    ensures memory { OnErr result (out.new.items ≡ out.old.items) }
{
    let start = out.len();
    match put_document(quads.as_slice(), kind, out) {
        Ok(()) => Ok(()),
        Err(memory) => {
            out.truncate(start);
            Err(memory)
        }
    }
}
