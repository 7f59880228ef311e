//! What the words of `serve` ask for.
ghost use Rattle.std.specs.Prelude.{[]};
ghost use Rattle.rdf_server.specs.Readings.{AreNamed};

/// A port, a number of workers, and how many connections each of them serves at most, where that is said.
#[derive(Clone, Copy, Debug, PartialEq, Eq, Drop)]
pub struct Plan {
    pub port: u16,
    pub workers: u32,
    pub connections: Option<u64>,
}

/// What options name: how many orders, and each other thing where one names it.
#[derive(Clone, Copy, Debug, Drop)]
pub(crate) struct Named {
    pub orders: usize,
    pub port: Option<u16>,
    pub workers: Option<u32>,
    pub connections: Option<u64>,
}

impl Named {
    /// What no option names.
    pub(crate) fn nothing() -> Named
        ensures { AreNamed [] result }
    {
        Named {
            orders: 0,
            port: None,
            workers: None,
            connections: None,
        }
    }
}
