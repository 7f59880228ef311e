//! How the reply to a call is read.
ghost use Rattle.std.specs.Prelude.{◌≡◌};
ghost use Rattle.reply_reading.specs.Manners.{ask_manner, manner_of, names_manner, op_manner, query_manner, truth_manner};

use api_calls::Call;
use api_replies::kind_of;
use journal::{Ask, NamesOp, Op};
use media::Form;
use nquads::Kind;
use query_model::Query;

/// How a reply is read from a response.
#[derive(Clone, Copy, Debug)]
pub enum Manner {
    /// A transaction, by the field Location.
    Begun,
    /// The table of the body.
    Table,
    /// The truth value of the body, in JSON.
    Truth,
    /// The truth value of the body, a word.
    Word,
    /// The quads of the body, a document of this kind.
    Quads(Kind),
    /// The number that the body writes.
    Count,
    /// The contexts of the body, a table.
    Contexts,
    /// The prefixes of the body, a table, with their names.
    Prefixes,
    /// The name of a prefix, which is the body.
    Prefix,
    /// That it is done, whatever the body is.
    Nothing,
}

fn truth_manner(form: Form) -> Manner
    ensures { result ≡ truth_manner form }
{
    match form {
        Form::Boolean => Manner::Word,
        Form::NQuads
        | Form::XNQuads
        | Form::NTriples
        | Form::PlainTriples
        | Form::ResultsJson
        | Form::Json
        | Form::PlainText => Manner::Truth,
    }
}

fn query_manner(query: &Query, form: Form) -> Manner
    ensures { result ≡ query_manner query.now form }
{
    match query {
        Query::Select { .. } => Manner::Table,
        Query::Ask { .. } => truth_manner(form),
        Query::Construct { .. } => Manner::Quads(kind_of(form)),
    }
}

fn ask_manner(ask: &Ask, form: Form) -> Manner
    ensures { result ≡ ask_manner ask.now form }
{
    match ask {
        Ask::Query(query) => query_manner(query, form),
        Ask::List { .. } => Manner::Quads(kind_of(form)),
        Ask::Size { .. } => Manner::Count,
        Ask::Contexts => Manner::Contexts,
    }
}

fn names_manner(names: &NamesOp) -> Manner
    ensures { result ≡ names_manner names.now }
{
    match names {
        NamesOp::List => Manner::Prefixes,
        NamesOp::Get(_) => Manner::Prefix,
        NamesOp::Put(_, _) | NamesOp::Remove(_) | NamesOp::Clear => Manner::Nothing,
    }
}

fn op_manner(op: &Op, form: Form) -> Manner
    ensures { result ≡ op_manner op.now form }
{
    match op {
        Op::Begin(_) => Manner::Begun,
        Op::Read { txn: _, ask } => ask_manner(ask, form),
        Op::Names(names) => names_manner(names),
        Op::Step { .. } | Op::Write { .. } | Op::Commit(_) | Op::Rollback(_) | Op::Ping(_) => {
            Manner::Nothing
        }
    }
}

/// How the reply to a call is read.
pub fn manner_of(call: &Call) -> Manner
    ensures { result ≡ manner_of call.now }
{
    match call {
        Call::Protocol | Call::Repositories(_) => Manner::Nothing,
        Call::On { repo: _, op, form } => op_manner(op, *form),
    }
}
