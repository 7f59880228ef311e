ghost use Rattle.query_tokens.specs.Laws.{EachHasTokens, OneTokenList, PartedTokens};

/// Whatever is left of a text has a list of tokens.
pub fn each_has_tokens()
    ensures { EachHasTokens }
{}

/// A text has at most one list of tokens.
pub fn one_token_list()
    ensures { OneTokenList }
{}

/// A token before the end or a space is the first token there; so are an IRI and a string before any
/// character but their closing mark, and `^^` before any character.
pub fn parted_tokens()
    ensures { PartedTokens }
{}
