ghost use Rattle.std.specs.Prelude.{IfErr, IfOk};
ghost use Rattle.query_model.specs.declared.query.Query.{Query as AQuery};
ghost use Rattle.query_grammar.specs.declared.fault.QueryFault.{QueryFault as AFault};
ghost use Rattle.query_grammar.specs.Answers.{GivesFault, GivesQuery};
ghost use Rattle.query_grammar.specs.QueryText.{IsFaultOf, IsQueryFault, IsQueryText};

use crate::fault::{QueryFault, Stop, fault_at};
use crate::reader::run;
use query_model::Query;
use query_tokens::{each_has_tokens, one_token_list};
use std::alloc::Global;

/// The query that the text is by the grammar of the profile (SPARQL 1.1, section 19.8), or the fault
/// at its first refused token, behind which nothing is read. `Memory` is answered where none is
/// found, in the place of either.
pub fn parse_query(alloc: Global, text: &str) -> Result<Query, QueryFault>
    ensures found { IfOk result (λ q. IsQueryText text.now q) }
    ensures only { (q : AQuery) → IsQueryText text.now q → GivesQuery result q }
    ensures fault { IfErr result (λ e. IsFaultOf text.now e) }
    ensures refused { (e : AFault) → IsQueryFault text.now e → GivesFault result e }
{
    one_token_list();
    each_has_tokens();
    match run(alloc, text) {
        Ok(query) => Ok(query),
        Err(Stop::Refused(at, kind)) => Err(fault_at(kind, at)),
        Err(Stop::Memory) => Err(QueryFault::Memory),
    }
}
