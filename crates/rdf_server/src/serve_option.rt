//! The options of `serve`.
use quad_index::Order;

/// What an option names.
#[derive(Clone, Copy, Debug, Drop)]
pub(crate) enum ServeOption {
    /// An order in which each repository keeps its quads.
    Order(Order),
    /// The port that is listened on.
    Port(u16),
    /// The number of workers.
    Workers(u32),
    /// The most connections that each worker serves.
    Connections(u64),
}

/// The kinds of options.
#[derive(Clone, Copy, Debug, Drop)]
pub(crate) enum OptionKind {
    Order,
    Port,
    Workers,
    Connections,
}
