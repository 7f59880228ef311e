//! Laws of the texts of queries, each as the contract of a function that does nothing.
ghost use Rattle.query_grammar.specs.Queries.{MeaningIsBuilt};
ghost use Rattle.query_grammar.specs.QueryText.{OneFault, OneQuery};

use query_tokens::one_token_list;

/// A text has at most one query.
pub fn one_query()
    ensures { OneQuery }
{
    one_token_list();
}

/// A text has at most one fault.
pub fn one_fault()
    ensures { OneFault }
{
    one_token_list();
}

/// What the tokens of a query add one by one is the query that the rules of the grammar give.
pub fn meaning_is_built()
    ensures { MeaningIsBuilt }
{}
