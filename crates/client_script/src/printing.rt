//! What a client prints for the answers to its calls.
ghost use Rattle.std.specs.Prelude.{◌≡◌, ◌++◌, ◌-◌, OnOk, OnErr, codes, decimal, length, take, encode_utf8_all};
ghost use Rattle.std.specs.List.{flat_map, suffix_len};
ghost use Rattle.rdf_term.specs.Writing.{Appends};
ghost use Rattle.client_script.specs.Inputs.{is_lf};
ghost use Rattle.client_script.specs.Printed.{bad_line, begun_line, context_lines, count_line, done_text, line, namespace_line, namespace_lines, place_text, printed, quad_lines, refused_line, row_line, table_lines, term_bytes, truth_text, variable_line, variable_text, with_tabs, without_ends};

use journal::{Names, Op, Reply, Terms, Txn};
use nquads::{Kind, write_quads, write_term};
use query_text::{Names1, Row, Table};
use rdf_term::{Bytes, Memory, Quads, Term, Text};

/// Appends the last line of a list: its name and how many there are.
fn put_count(name: &[u8], count: u64, out: &mut Bytes) -> Result<(), Memory>
    ensures { Appends result out.old.items out.new.items (count_line name.now count) }
{
    out.append(name)?;
    out.append_decimal(count)?;
    out.append(b"\n")
}

/// Appends a line.
fn put_line(text: &[u8], out: &mut Bytes) -> Result<(), Memory>
    ensures { Appends result out.old.items out.new.items (line text.now) }
{
    out.append(text)?;
    out.append(b"\n")
}

/// Appends the name of a variable.
fn put_variable(name: &Text, out: &mut Bytes) -> Result<(), Memory>
    ensures { Appends result out.old.items out.new.items (variable_text name.now) }
{
    out.append(b"?")?;
    out.append(name.as_str().as_bytes())
}

/// Appends the names of variables, each behind a tab.
fn put_more_variables(names: &[Text], out: &mut Bytes) -> Result<(), Memory>
    ensures { Appends result out.old.items out.new.items (flat_map (λ name. codes "\t" ++ variable_text name) names.now) }
{
    for name in names {
        out.append(b"\t")?;
        put_variable(name, out)?;
    }
    Ok(())
}

/// Appends the line of the variables of a table.
fn put_variables(names: &[Text], out: &mut Bytes) -> Result<(), Memory>
    ensures { Appends result out.old.items out.new.items (variable_line names.now) }
{
    if let Some((first, others)) = names.split_first() {
        put_variable(first, out)?;
        put_more_variables(others, out)?;
    }
    out.append(b"\n")
}

/// Appends the text of a place of a row.
fn put_place(place: &Option<Term>, out: &mut Bytes) -> Result<(), Memory>
    ensures { Appends result out.old.items out.new.items (place_text place.now) }
{
    match place {
        None => Ok(()),
        Some(term) => write_term(term, out),
    }
}

/// Appends the texts of places, each behind a tab.
fn put_more_places(places: &[Option<Term>], out: &mut Bytes) -> Result<(), Memory>
    ensures { Appends result out.old.items out.new.items (flat_map (λ place. codes "\t" ++ place_text place) places.now) }
{
    for place in places {
        out.append(b"\t")?;
        put_place(place, out)?;
    }
    Ok(())
}

/// Appends the line of a row.
fn put_places(places: &[Option<Term>], out: &mut Bytes) -> Result<(), Memory>
    ensures { Appends result out.old.items out.new.items (row_line places.now) }
{
    if let Some((first, others)) = places.split_first() {
        put_place(first, out)?;
        put_more_places(others, out)?;
    }
    out.append(b"\n")
}

fn put_row(row: &Row, out: &mut Bytes) -> Result<(), Memory>
    ensures { Appends result out.old.items out.new.items (row_line row.now) }
{
    put_places(row.as_slice(), out)
}

fn put_rows(rows: &[Row], out: &mut Bytes) -> Result<(), Memory>
    ensures { Appends result out.old.items out.new.items (flat_map row_line rows.now) }
{
    for row in rows {
        put_row(row, out)?;
    }
    Ok(())
}

/// Appends a table.
fn put_table(table: &Table, out: &mut Bytes) -> Result<(), Memory>
    ensures { Appends result out.old.items out.new.items (table_lines table.now) }
{
    put_variables(table.vars.as_slice(), out)?;
    put_rows(table.rows.as_slice(), out)?;
    put_count(b"rows ", table.rows.len() as u64, out)
}

/// Appends the canonical lines of quads, and their number.
fn put_quads(quads: &Quads, out: &mut Bytes) -> Result<(), Memory>
    ensures { Appends result out.old.items out.new.items (quad_lines quads.now) }
{
    write_quads(quads, Kind::Quads, out)?;
    put_count(b"quads ", quads.len() as u64, out)
}

fn put_context(name: &Term, out: &mut Bytes) -> Result<(), Memory>
    ensures { Appends result out.old.items out.new.items (line (term_bytes name.now)) }
{
    write_term(name, out)?;
    out.append(b"\n")
}

fn put_each_context(names: &[Term], out: &mut Bytes) -> Result<(), Memory>
    ensures { Appends result out.old.items out.new.items (flat_map (λ t. line (term_bytes t)) names.now) }
{
    for name in names {
        put_context(name, out)?;
    }
    Ok(())
}

/// Appends the names of graphs, and their number.
fn put_contexts(names: &Terms, out: &mut Bytes) -> Result<(), Memory>
    ensures { Appends result out.old.items out.new.items (context_lines names.now) }
{
    put_each_context(names.as_slice(), out)?;
    put_count(b"contexts ", names.len() as u64, out)
}

/// Appends the line of a prefix and the IRI that it stands for.
fn put_namespace(pair: &(Text, Text), out: &mut Bytes) -> Result<(), Memory>
    ensures { Appends result out.old.items out.new.items (namespace_line pair.now) }
{
    out.append(pair.0.as_str().as_bytes())?;
    out.append(b" ")?;
    put_line(pair.1.as_str().as_bytes(), out)
}

fn put_each_namespace(pairs: &[(Text, Text)], out: &mut Bytes) -> Result<(), Memory>
    ensures { Appends result out.old.items out.new.items (flat_map namespace_line pairs.now) }
{
    for pair in pairs {
        put_namespace(pair, out)?;
    }
    Ok(())
}

/// Appends namespaces, and their number.
fn put_namespaces(pairs: &Names, out: &mut Bytes) -> Result<(), Memory>
    ensures { Appends result out.old.items out.new.items (namespace_lines pairs.now) }
{
    put_each_namespace(pairs.as_slice(), out)?;
    put_count(b"namespaces ", pairs.len() as u64, out)
}

/// What is said of an op that is done.
fn done_text(op: &Op) -> &'static [u8]
    ensures { result.now ≡ done_text op.now }
{
    match op {
        Op::Commit(_) => b"committed",
        Op::Rollback(_) => b"rolled back",
        Op::Begin(_)
        | Op::Read { .. }
        | Op::Step { .. }
        | Op::Write { .. }
        | Op::Ping(_)
        | Op::Names(_) => b"done",
    }
}

fn truth_text(truth: bool) -> &'static [u8]
    ensures { result.now ≡ truth_text truth }
{
    if truth { b"true" } else { b"false" }
}

/// Appends that a transaction was begun, and its name.
fn put_begun(txn: Txn, out: &mut Bytes) -> Result<(), Memory>
    ensures { Appends result out.old.items out.new.items (begun_line txn) }
{
    out.append(b"begun ")?;
    out.append_decimal(txn.place)?;
    put_count(b"-", u64::from(txn.level.number()), out)
}

/// Appends what is printed for the reply to an op.
fn put_reply(op: &Op, reply: &Reply, out: &mut Bytes) -> Result<(), Memory>
    ensures { Appends result out.old.items out.new.items (printed op.now reply.now) }
{
    match reply {
        Reply::Begun(txn) => put_begun(*txn, out),
        Reply::Done => put_line(done_text(op), out),
        Reply::Table(table) => put_table(table, out),
        Reply::Truth(truth) => put_line(truth_text(*truth), out),
        Reply::Quads(quads) => put_quads(quads, out),
        Reply::Count(count) => put_count(b"size ", *count, out),
        Reply::Contexts(names) => put_contexts(names, out),
        Reply::Prefixes(pairs) => put_namespaces(pairs, out),
        Reply::Prefix(_)
        | Reply::NoPrefix
        | Reply::NoTransaction
        | Reply::TooManyOpen
        | Reply::Conflict(_, _)
        | Reply::TooLarge
        | Reply::TooManyRows => Ok(()),
    }
}

/// Appends what is printed for the reply to an op. Without memory the buffer's bytes stay as they were.
pub fn print_reply(op: &Op, reply: &Reply, out: &mut Bytes) -> Result<(), Memory>
    ensures ok { OnOk result (out.new.items ≡ out.old.items ++ printed op.now reply.now) }
    ensures memory { OnErr result (out.new.items ≡ out.old.items) }
{
    let start = out.len();
    match put_reply(op, reply, out) {
        Ok(()) => Ok(()),
        Err(memory) => {
            out.truncate(start);
            Err(memory)
        }
    }
}

/// The bytes without the line feeds at their end.
fn without_ends(text: &[u8]) -> &[u8]
    ensures { result.now ≡ without_ends text.now }
{
    let mut end = text.len();
    while end > 0 {
        if text[end - 1] != b'\n' {
            return &text[..end];
        }
        end -= 1;
    }
    &[]
}

fn put_refusal(status: u16, text: &[u8], out: &mut Bytes) -> Result<(), Memory>
    ensures { Appends result out.old.items out.new.items (refused_line status text.now) }
{
    put_status(status, out)?;
    put_line(without_ends(text), out)
}

fn put_status(status: u16, out: &mut Bytes) -> Result<(), Memory>
    ensures { Appends result out.old.items out.new.items (codes "refused " ++ (decimal status ++ codes " ")) }
{
    out.append(b"refused ")?;
    out.append_decimal(u64::from(status))?;
    out.append(b" ")
}

/// Appends what is printed for a request that was refused with this status and text, which one line feed
/// ends. Without memory the buffer's bytes stay as they were.
pub fn print_refusal(status: u16, text: &[u8], out: &mut Bytes) -> Result<(), Memory>
    ensures ok { OnOk result (out.new.items ≡ out.old.items ++ refused_line status text.now) }
    ensures memory { OnErr result (out.new.items ≡ out.old.items) }
{
    let start = out.len();
    match put_refusal(status, text, out) {
        Ok(()) => Ok(()),
        Err(memory) => {
            out.truncate(start);
            Err(memory)
        }
    }
}

/// Appends what is printed for a line of this number, from 1, that is none of a script. Without memory
/// the buffer's bytes stay as they were.
pub fn print_bad_line(number: u64, out: &mut Bytes) -> Result<(), Memory>
    ensures ok { OnOk result (out.new.items ≡ out.old.items ++ bad_line number) }
    ensures memory { OnErr result (out.new.items ≡ out.old.items) }
{
    let start = out.len();
    match put_count(b"bad script line ", number, out) {
        Ok(()) => Ok(()),
        Err(memory) => {
            out.truncate(start);
            Err(memory)
        }
    }
}
