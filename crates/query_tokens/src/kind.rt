use crate::Number;

/// What stands between two marks.
#[derive(Clone, Copy, Debug)]
pub enum Quoted {
    /// IRIREF, between `<` and `>`.
    Iri,
    /// STRING_LITERAL2, between `"` and `"`.
    Double,
    /// STRING_LITERAL1, between `'` and `'`.
    Single,
}

/// What a token is, before its text is read.
#[derive(Clone, Copy, Debug)]
pub enum Kind {
    Word,
    Namespace,
    Name,
    Iri,
    Str,
    Quotes,
    Var,
    Label,
    Tag,
    Number(Number),
    Open,
    Close,
    Dot,
    Semicolon,
    Comma,
    Carets,
    Star,
    Unsupported,
    Other,
}
