ghost use Rattle.std.specs.Prelude.{◌≡◌};
ghost use Rattle.query_grammar.specs.Classes.{is_graph_name, is_iri, is_unsupported, is_verb, is_word};

use query_tokens::Token;

/// Whether the token is an iri.
pub fn is_iri(token: &Token) -> bool
    ensures { result ≡ is_iri token.now }
{
    matches!(
        token,
        Token::Namespace(_) | Token::Iri(_) | Token::Name(_, _)
    )
}

/// Whether the token can be a verb.
pub fn is_verb(token: &Token) -> bool
    ensures { result ≡ is_verb token.now }
{
    matches!(
        token,
        Token::Namespace(_) | Token::Iri(_) | Token::Name(_, _) | Token::Var(_) | Token::A
    )
}

/// Whether the token can name a graph.
pub fn is_graph_name(token: &Token) -> bool
    ensures { result ≡ is_graph_name token.now }
{
    matches!(
        token,
        Token::Namespace(_) | Token::Iri(_) | Token::Name(_, _) | Token::Var(_)
    )
}

/// Whether the token is a slot by itself, which nothing extends; three quotes are, where a string
/// would be.
pub fn is_word(token: &Token) -> bool
    ensures { result ≡ is_word token.now }
{
    matches!(
        token,
        Token::Namespace(_)
            | Token::Iri(_)
            | Token::Name(_, _)
            | Token::Var(_)
            | Token::Label(_)
            | Token::Number(_, _)
            | Token::True
            | Token::False
            | Token::Quotes
    )
}

/// Whether the token is unsupported where the grammar doesn't take it.
pub fn is_unsupported(token: &Token) -> bool
    ensures { result ≡ is_unsupported token.now }
{
    matches!(token, Token::Open | Token::Star | Token::Unsupported)
}
