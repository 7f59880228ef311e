ghost use Rattle.std.specs.Prelude.{◌≡◌, ◌++◌, OnOk, OnErr, codes, encode_utf8_all};
ghost use Rattle.std.specs.List.{flat_map};
ghost use Rattle.rdf_term.specs.Canonical.{escaped, quoted, term_text};
ghost use Rattle.rdf_term.specs.Writing.{Appends};

use rdf_term::{Bytes, Memory, Term, Text};

/// Appends a byte of a literal's text.
fn put_byte(byte: u8, out: &mut Bytes) -> Result<(), Memory>
    ensures { Appends result out.old.items out.new.items (escaped byte) }
{
    if byte == b'"' {
        return out.append(b"\\\"");
    }
    if byte == b'\\' {
        return out.append(b"\\\\");
    }
    if byte == b'\n' {
        return out.append(b"\\n");
    }
    if byte == b'\r' {
        return out.append(b"\\r");
    }
    out.push(byte)
}

/// Appends a literal's text between its marks.
fn put_escaped(text: &[u8], out: &mut Bytes) -> Result<(), Memory>
    ensures { Appends result out.old.items out.new.items (flat_map escaped text.now) }
{
    for byte in text {
        put_byte(*byte, out)?;
    }
    Ok(())
}

fn put_quoted(text: &Text, out: &mut Bytes) -> Result<(), Memory>
    ensures { Appends result out.old.items out.new.items (encode_utf8_all (quoted text.now)) }
{
    out.append(b"\"")?;
    put_escaped(text.as_str().as_bytes(), out)?;
    out.append(b"\"")
}

fn put(mark: &str, text: &Text, end: &str, out: &mut Bytes) -> Result<(), Memory>
    ensures { Appends result out.old.items out.new.items (mark.now ++ encode_utf8_all text.now ++ end.now) }
{
    out.append(mark.as_bytes())?;
    out.append(text.as_str().as_bytes())?;
    out.append(end.as_bytes())
}

fn put_term(term: &Term, out: &mut Bytes) -> Result<(), Memory>
    ensures { Appends result out.old.items out.new.items (encode_utf8_all (term_text term.now)) }
{
    match term {
        Term::Iri(iri) => put("<", iri, ">", out),
        Term::Blank(label) => put("_:", label, "", out),
        Term::Plain(text) => put_quoted(text, out),
        Term::Tagged(text, tag) => {
            put_quoted(text, out)?;
            put("@", tag, "", out)
        }
        Term::Typed(text, datatype) => {
            put_quoted(text, out)?;
            put("^^<", datatype, ">", out)
        }
    }
}

/// Appends a term's text.
pub fn write_term(term: &Term, out: &mut Bytes) -> Result<(), Memory>
    ensures ok { OnOk result (out.new.items ≡ out.old.items ++ encode_utf8_all (term_text term.now)) }
    ensures memory { OnErr result (out.new.items ≡ out.old.items) }
{
    let start = out.len();
    match put_term(term, out) {
        Ok(()) => Ok(()),
        Err(memory) => {
            out.truncate(start);
            Err(memory)
        }
    }
}
