/// The format of a line.
#[derive(Clone, Copy, Debug, PartialEq, Eq)]
pub enum Kind {
    /// N-Triples, where no statement names a graph.
    Triples,
    /// N-Quads, where a graph label may stand before the dot.
    Quads,
}
