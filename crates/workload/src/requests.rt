//! The requests of a round as bytes.
ghost use Rattle.std.specs.Prelude.{◌≡◌, ◌++◌, decimal, length, codes, OnOk};
ghost use Rattle.workload.specs.Numbers.{value_in};
ghost use Rattle.workload.specs.Requests.{has_body, line_of, method_of, request_bytes, rest_of, start_of, subject_statements, target_of, transaction, transactions, with_body};

use rdf_term::{Bytes, Memory};

/// The quads of the repository that all sessions share.
const SHARED_STATEMENTS: &[u8] = b"/rdf4j-server/repositories/all/statements";

/// What a request of a round asks for.
#[derive(Clone, Copy, Debug, Drop)]
pub(crate) enum RequestKind {
    /// To begin a SERIALIZABLE transaction in the session's own repository.
    Begin,
    /// To add the round's line in it.
    Add,
    /// To commit it.
    Commit,
    /// To add the round's line to the repository that all sessions share.
    Copy,
    /// To delete what it holds on the subject of that line.
    Delete,
}

/// Appends the line of a round with this value.
#[tactic(auto, unfolding(crate::specs::Requests::line_of))]
pub(crate) fn put_line(session: u32, round: u32, value: u64, out: &mut Bytes) -> Result<(), Memory>
    requires { value ≡ value_in session round }
    ensures { OnOk result (out.new.items ≡ out.old.items ++ line_of session round) }
{
    out.append(b"<http://w/s")?;
    out.append_decimal(u64::from(session))?;
    out.append(b"/")?;
    out.append_decimal(u64::from(round))?;
    out.append(b"> <http://w/p> \"")?;
    out.append_decimal(value)?;
    out.append(b"\" .\n")?;
    Ok(())
}

fn method_of(kind: RequestKind) -> &'static [u8]
    ensures { result.now ≡ method_of kind }
{
    match kind {
        RequestKind::Begin | RequestKind::Copy => b"POST",
        RequestKind::Add | RequestKind::Commit => b"PUT",
        RequestKind::Delete => b"DELETE",
    }
}

fn has_body(kind: RequestKind) -> bool
    ensures { result ≡ has_body kind }
{
    matches!(kind, RequestKind::Add | RequestKind::Copy)
}

fn put_transactions(session: u32, out: &mut Bytes) -> Result<(), Memory>
    ensures { OnOk result (out.new.items ≡ out.old.items ++ transactions session) }
{
    out.append(b"/rdf4j-server/repositories/w")?;
    out.append_decimal(u64::from(session))?;
    out.append(b"/transactions")?;
    Ok(())
}

/// Appends the path of a round's transaction. It is named by the place of its Begin, and each round before
/// made three entries.
fn put_transaction(session: u32, round: u32, out: &mut Bytes) -> Result<(), Memory>
    ensures { OnOk result (out.new.items ≡ out.old.items ++ transaction session round) }
{
    put_transactions(session, out)?;
    out.append(b"/")?;
    out.append_decimal(3 * u64::from(round))?;
    out.append(b"-5")?;
    Ok(())
}

fn put_subject_statements(session: u32, round: u32, out: &mut Bytes) -> Result<(), Memory>
    ensures { OnOk result (out.new.items ≡ out.old.items ++ subject_statements session round) }
{
    out.append(SHARED_STATEMENTS)?;
    out.append(b"?subj=%3Chttp%3A%2F%2Fw%2Fs")?;
    out.append_decimal(u64::from(session))?;
    out.append(b"%2F")?;
    out.append_decimal(u64::from(round))?;
    out.append(b"%3E")?;
    Ok(())
}

fn put_target(session: u32, round: u32, kind: RequestKind, out: &mut Bytes) -> Result<(), Memory>
    ensures { OnOk result (out.new.items ≡ out.old.items ++ target_of session round kind) }
{
    match kind {
        RequestKind::Begin => {
            put_transactions(session, out)?;
            out.append(b"?isolation-level=SERIALIZABLE")
        }
        RequestKind::Add => {
            put_transaction(session, round, out)?;
            out.append(b"?action=ADD")
        }
        RequestKind::Commit => {
            put_transaction(session, round, out)?;
            out.append(b"?action=COMMIT")
        }
        RequestKind::Copy => out.append(SHARED_STATEMENTS),
        RequestKind::Delete => put_subject_statements(session, round, out),
    }
}

fn put_start(session: u32, round: u32, kind: RequestKind, out: &mut Bytes) -> Result<(), Memory>
    ensures { OnOk result (out.new.items ≡ out.old.items ++ start_of (method_of kind) (target_of session round kind)) }
{
    out.append(method_of(kind))?;
    out.append(b" ")?;
    put_target(session, round, kind, out)?;
    out.append(b" HTTP/1.1\r\nHost: w\r\n")?;
    Ok(())
}

fn put_with_body(body: &[u8], out: &mut Bytes) -> Result<(), Memory>
    ensures { OnOk result (out.new.items ≡ out.old.items ++ with_body body.now) }
{
    out.append(b"Content-Type: application/n-quads\r\nContent-Length: ")?;
    out.append_decimal(body.len() as u64)?;
    out.append(b"\r\n\r\n")?;
    out.append(body)?;
    Ok(())
}

fn put_rest(has_body: bool, body: &[u8], out: &mut Bytes) -> Result<(), Memory>
    ensures { OnOk result (out.new.items ≡ out.old.items ++ rest_of has_body body.now) }
{
    if has_body {
        put_with_body(body, out)
    } else {
        out.append(b"\r\n")
    }
}

/// Appends a request of a round, whose line this is.
#[tactic(auto, unfolding(crate::specs::Requests::request_bytes))]
pub(crate) fn put_request(
    session: u32,
    round: u32,
    line: &[u8],
    kind: RequestKind,
    out: &mut Bytes,
) -> Result<(), Memory>
    requires { line.now ≡ line_of session round }
    ensures { OnOk result (out.new.items ≡ out.old.items ++ request_bytes session round kind) }
{
    put_start(session, round, kind, out)?;
    put_rest(has_body(kind), line, out)
}
