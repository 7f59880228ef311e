ghost use Rattle.std.specs.Prelude.{◌≡◌, List, [], None, IfOk, length};
ghost use Rattle.query_tokens.specs.declared.token.Placed.{Placed as APlaced};
ghost use Rattle.query_grammar.specs.Answers.{Gives, Leads, located, tokens_of};
ghost use Rattle.query_grammar.specs.Built.{add, empty, query_of, refusal};
ghost use Rattle.query_grammar.specs.Queries.{by_itself};
ghost use Rattle.query_grammar.specs.QueryText.{AreTokensOf};
ghost use Rattle.query_grammar.specs.Machine.{can_end};
ghost use Rattle.query_grammar.specs.Runs.{at_end, run};

use crate::built::Built;
use crate::classes::is_unsupported;
use crate::fault::{Kind, Stop};
use crate::mode::{Mode, Role, can_end, next};
use query_model::Query;
use query_tokens::{Placed, Token, Tokens, each_has_tokens, one_token_list};
use rdf_term::Memory;
use std::alloc::Global;

/// Why a token is refused that the grammar doesn't take.
fn by_itself(token: &Token) -> Kind
    ensures { result ≡ by_itself token.now }
{
    if is_unsupported(token) {
        Kind::Unsupported
    } else {
        Kind::BadAt
    }
}

/// Adds what a token says, or tells why it is refused.
fn take(alloc: Global, built: &mut Built, role: Role, token: Token) -> Result<Option<Kind>, Memory>
    ensures kind { IfOk result (λ kind. kind ≡ refusal built.old role token) }
    ensures built { IfOk result (λ kind. kind ≡ None → built.new ≡ add built.old role token) }
{
    let spelled = built.spelled_out(alloc, role, token)?;
    if let Some(kind) = built.refusal(alloc, role, &spelled)? {
        return Ok(Some(kind));
    }
    built.add(alloc, role, &spelled)?;
    Ok(None)
}

/// Where a token leads, behind which anything may stand, once what it says is added.
fn step(alloc: Global, mode: Mode, built: &mut Built, placed: Placed) -> Result<Mode, Stop>
    ensures { Leads mode built.old placed result built.new }
{
    match next(mode, &placed.token) {
        None => Err(Stop::Refused(placed.start, by_itself(&placed.token))),
        Some((role, after)) => match take(alloc, built, role, placed.token)? {
            Some(kind) => Err(Stop::Refused(placed.start, kind)),
            None => Ok(after),
        },
    }
}

/// The query that was read, where the text may end here.
fn ended(alloc: Global, mode: Mode, built: Built, end: usize) -> Result<Query, Stop>
    ensures { Gives result (located [] end (at_end built (can_end mode))) }
{
    if can_end(mode) {
        Ok(built.into_query(alloc)?)
    } else {
        Err(Stop::Refused(end, Kind::BadAt))
    }
}

/// The query that a text is, or where and why its reading stops. A token is read where the one before
/// it was taken.
pub fn run(alloc: Global, text: &str) -> Result<Query, Stop>
    ensures { (tokens : List APlaced) → AreTokensOf text.now tokens → Gives result (located tokens (length text.now) (run Mode.Head empty (tokens_of tokens))) }
{
    one_token_list();
    each_has_tokens();
    let mut mode = Mode::Head;
    let mut built = Built::new(alloc);
    let mut tokens = Tokens::new(alloc, text);
    while let Some(placed) = tokens.next()? {
        match step(alloc, mode, &mut built, placed) {
            Ok(after) => mode = after,
            Err(stop) => return Err(stop),
        }
    }
    ended(alloc, mode, built, text.len())
}
