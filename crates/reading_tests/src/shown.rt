//! What is got, in words.
use journal::{Names, Reply, Terms};
use nquads::{Kind, write_quads, write_term};
use rdf_term::{Bytes, Memory};
use reply_reading::{Got, ReplyFault};
use results_json::write_rows;
use std::alloc::Global;

fn append_terms(terms: &Terms, out: &mut Bytes) -> Result<(), Memory> {
    for term in terms.as_slice() {
        out.append(b" ")?;
        write_term(term, out)?;
    }
    Ok(())
}

fn append_pairs(pairs: &Names, out: &mut Bytes) -> Result<(), Memory> {
    for pair in pairs.as_slice() {
        out.append(b" ")?;
        out.append(pair.0.as_str().as_bytes())?;
        out.append(b"=")?;
        out.append(pair.1.as_str().as_bytes())?;
    }
    Ok(())
}

fn append_reply(alloc: Global, reply: &Reply, out: &mut Bytes) -> Result<(), Memory> {
    match reply {
        Reply::Begun(txn) => {
            out.append(b"begun ")?;
            out.append_decimal(txn.place)?;
            out.append(b" ")?;
            out.append_decimal(u64::from(txn.level.number()))
        }
        Reply::Done => out.append(b"done"),
        Reply::Table(table) => {
            let text = write_rows(alloc, table)?;
            out.append(text.as_slice())
        }
        Reply::Truth(truth) => out.append(if *truth {
            b"yes".as_slice()
        } else {
            b"no".as_slice()
        }),
        Reply::Quads(quads) => write_quads(quads, Kind::Quads, out),
        Reply::Count(count) => {
            out.append(b"count ")?;
            out.append_decimal(*count)
        }
        Reply::Contexts(names) => {
            out.append(b"contexts")?;
            append_terms(names, out)
        }
        Reply::Prefixes(pairs) => {
            out.append(b"prefixes")?;
            append_pairs(pairs, out)
        }
        Reply::Prefix(name) => {
            out.append(b"prefix ")?;
            out.append(name.as_str().as_bytes())
        }
        Reply::NoPrefix
        | Reply::NoTransaction
        | Reply::TooManyOpen
        | Reply::Conflict(_, _)
        | Reply::TooLarge
        | Reply::TooManyRows => out.append(b"refused by the store"),
    }
}

fn append_numbered(word: &[u8], number: u64, out: &mut Bytes) -> Result<(), Memory> {
    out.append(word)?;
    out.append(b" ")?;
    out.append_decimal(number)
}

/// What is got, in words.
pub fn shown(alloc: Global, got: &Result<Got, ReplyFault>) -> Result<Bytes, Memory> {
    let mut out = Bytes::new(alloc);
    match got {
        Ok(Got::Reply(reply)) => append_reply(alloc, reply, &mut out)?,
        Ok(Got::Refused(status, body)) => {
            append_numbered(b"refused", u64::from(*status), &mut out)?;
            out.append(b" ")?;
            out.append(body.as_slice())?;
        }
        Err(ReplyFault::BadReply(place)) => append_numbered(b"bad", *place, &mut out)?,
        Err(ReplyFault::Memory) => out.append(b"no memory")?,
    }
    Ok(out)
}
