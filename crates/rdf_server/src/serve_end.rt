//! How the program `serve` ends.
ghost use Rattle.std.specs.Prelude.{◌≡◌};
ghost use Rattle.std.specs.List.{list_any};
ghost use Rattle.rdf_server.specs.Serving.{is_fault, is_want, serve_status};

use worker_pool::{DoorEnd, DoorStop, HouseEnd};

/// How the program `serve` ended.
#[derive(Drop)]
pub enum ServeEnd {
    /// The words are no words of it, and no connection was accepted.
    Words,
    /// No memory was found, and no connection was accepted.
    Memory,
    /// All doors were served.
    Served(HouseEnd),
}

fn is_fault(end: &DoorEnd) -> bool
    ensures { result ≡ is_fault end.now }
{
    match end.stop {
        DoorStop::DoorFault => true,
        DoorStop::Closed | DoorStop::Memory => false,
    }
}

fn is_want(end: &DoorEnd) -> bool
    ensures { result ≡ is_want end.now }
{
    match end.stop {
        DoorStop::Memory => true,
        DoorStop::Closed | DoorStop::DoorFault => false,
    }
}

fn any_fault(ends: &[DoorEnd]) -> bool
    ensures { result ≡ list_any is_fault ends.now }
{
    ends.iter().any(|end| is_fault(end))
}

fn any_want(ends: &[DoorEnd]) -> bool
    ensures { result ≡ list_any is_want ends.now }
{
    ends.iter().any(|end| is_want(end))
}

impl ServeEnd {
    /// The status of the program.
    ///
    /// | Status | Cause |
    /// |---|---|
    /// | 0 | no door has more connections |
    /// | 2 | a door failed |
    /// | 5 | the words are no words of this program |
    /// | 6 | no memory was found, for the repositories or for a report |
    pub fn status(&self) -> u8
        ensures { result ≡ serve_status self.now }
    {
        match self {
            ServeEnd::Words => 5,
            ServeEnd::Memory => 6,
            ServeEnd::Served(end) => {
                if any_fault(&end.doors) {
                    return 2;
                }
                if any_want(&end.doors) { 6 } else { 0 }
            }
        }
    }
}
