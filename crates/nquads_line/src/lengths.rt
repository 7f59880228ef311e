//! The bytes of canonical lines, up to the greatest number.
ghost use Rattle.std.specs.Prelude.{◌≡◌, ◌-◌, ◌^◌, min, length, encode_utf8_all};
ghost use Rattle.std.specs.List.{flat_map};
ghost use Rattle.rdf_term.specs.Canonical.{escaped, quoted, term_text, canonical_line};
ghost use Rattle.nquads_line.specs.Parts.{graph_part};

use rdf_term::{Graph, Quad, Term, Text};

/// The number of bytes that a byte of a literal's text is written as.
fn written_bytes(byte: u8) -> u64
    ensures { result ≡ length (escaped byte) }
{
    match byte {
        b'"' | b'\\' | b'\n' | b'\r' => 2,
        _ => 1,
    }
}

fn escaped_bytes(text: &[u8]) -> u64
    ensures { result ≡ min (length (flat_map escaped text.now)) (2 ^ 64 - 1) }
{
    let mut bytes = 0u64;
    for byte in text {
        bytes = bytes.saturating_add(written_bytes(*byte));
    }
    bytes
}

fn quoted_bytes(text: &Text) -> u64
    ensures { result ≡ min (length (encode_utf8_all (quoted text.now))) (2 ^ 64 - 1) }
{
    escaped_bytes(text.as_str().as_bytes()).saturating_add(2)
}

fn text_bytes(text: &Text) -> u64
    ensures { result ≡ length (encode_utf8_all text.now) }
{
    text.as_str().len() as u64
}

fn term_bytes(term: &Term) -> u64
    ensures { result ≡ min (length (encode_utf8_all (term_text term.now))) (2 ^ 64 - 1) }
{
    match term {
        Term::Iri(iri) => text_bytes(iri).saturating_add(2),
        Term::Blank(label) => text_bytes(label).saturating_add(2),
        Term::Plain(text) => quoted_bytes(text),
        Term::Tagged(text, tag) => quoted_bytes(text)
            .saturating_add(text_bytes(tag))
            .saturating_add(1),
        Term::Typed(text, datatype) => quoted_bytes(text)
            .saturating_add(text_bytes(datatype))
            .saturating_add(4),
    }
}

fn graph_bytes(graph: &Graph) -> u64
    ensures { result ≡ min (length (encode_utf8_all (graph_part graph.now))) (2 ^ 64 - 1) }
{
    match graph {
        Graph::Absent => 0,
        Graph::Named(name) => term_bytes(name).saturating_add(1),
    }
}

/// The number of bytes of a quad's canonical line in UTF-8, with its end. A number above 2^64 - 1
/// reads 2^64 - 1. It takes no memory.
pub fn line_bytes(quad: &Quad) -> u64
    ensures { result ≡ min (length (encode_utf8_all (canonical_line quad.now))) (2 ^ 64 - 1) }
{
    term_bytes(quad.s())
        .saturating_add(term_bytes(quad.p()))
        .saturating_add(term_bytes(quad.o()))
        .saturating_add(graph_bytes(quad.c()))
        .saturating_add(5)
}
