use rdf_term::Text;

/// What a number is, by the SPARQL 1.1 grammar's rules.
#[derive(Clone, Copy, Debug, PartialEq, Eq)]
pub enum Number {
    /// INTEGER, digits without a sign.
    Digits,
    /// Digits with a sign.
    Integer,
    /// DECIMAL, with or without a sign.
    Decimal,
    /// DOUBLE, with or without a sign.
    Double,
}

/// A token of the query profile of SPARQL 1.1.
#[derive(Debug, Drop)]
pub enum Token {
    /// The words of the profile, in any case of letters.
    Prefix,
    Select,
    Distinct,
    Reduced,
    Construct,
    Ask,
    Where,
    Graph,
    Limit,
    Offset,
    /// The words `a`, `true` and `false`, in lower case alone.
    A,
    True,
    False,
    /// `{`
    Open,
    /// `}`
    Close,
    /// `.`
    Dot,
    /// `;`
    Semicolon,
    /// `,`
    Comma,
    /// `^^`
    Carets,
    /// `*`
    Star,
    /// PNAME_NS: the prefix without its colon.
    Namespace(Text),
    /// IRIREF: what stands between `<` and `>`, with its escapes replaced.
    Iri(Text),
    /// PNAME_LN: the prefix without its colon, and the local part, where `%` and its digits are kept
    /// and the backslash of an escape is dropped.
    Name(Text, Text),
    /// VAR1 and VAR2: the name without `?` or `$`.
    Var(Text),
    /// BLANK_NODE_LABEL: the label without `_:`.
    Label(Text),
    /// STRING_LITERAL1 and STRING_LITERAL2: the text, with its escapes replaced.
    Str(Text),
    /// LANGTAG: the tag without `@`.
    Tag(Text),
    /// A number as it stands, with its sign.
    Number(Number, Text),
    /// Three quotes of one kind in succession.
    Quotes,
    /// A word or a mark of SPARQL 1.1 that the profile doesn't have.
    Unsupported,
    /// Any other word or mark.
    Other,
    /// Where no token begins.
    Bad,
}

/// A token and the byte of the text, in UTF-8, at which it begins.
#[derive(Debug, Drop)]
pub struct Placed {
    pub token: Token,
    pub start: usize,
}
