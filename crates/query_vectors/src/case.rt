/// What reading a text as a query gives.
#[derive(Clone, Copy, Debug, PartialEq, Eq)]
pub enum QueryReading {
    /// The text is a query, which is printed so.
    Printed(&'static str),
    /// The token that begins at this byte can not stand there; the length of the text stands for
    /// its end.
    BadAt(usize),
    /// SPARQL 1.1 has what begins at this byte, and the profile has not.
    Unsupported(usize),
    /// The prefix of the name that begins at this byte is not declared.
    UnknownPrefix(usize),
}

/// A text, and what reading it as a query gives.
#[derive(Clone, Copy, Debug, PartialEq, Eq)]
pub struct QueryCase {
    /// What the text shows, for the message of a test.
    pub what: &'static str,
    pub text: &'static str,
    /// What reading it gives.
    pub gives: QueryReading,
}
