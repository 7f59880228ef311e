ghost use Rattle.std.specs.Prelude.{◌≡◌, ◌^◌};

/// How much a repository may hold, and how much it may answer.
#[derive(Clone, Copy, Debug, PartialEq, Eq)]
pub struct Limits {
    /// The most quads of the committed content.
    pub quads: u64,
    /// The most bytes of its canonical lines.
    pub bytes: u64,
    /// The most solutions of a query.
    pub rows: u64,
    /// The most transactions that are open at once.
    pub txns: u32,
    /// The most prefixes.
    pub names: u32,
    /// The most entries of the journal.
    pub places: u64,
}

impl Limits {
    /// The limits of the repositories that the programs serve.
    pub fn standard() -> Limits
        ensures { result ≡ record { quads = 1048576; bytes = 268435456; rows = 1048576; txns = 1024; names = 65536; places = 2 ^ 62 } }
    {
        Limits {
            quads: 1_048_576,
            bytes: 268_435_456,
            rows: 1_048_576,
            txns: 1_024,
            names: 65_536,
            places: 1 << 62,
        }
    }
}
