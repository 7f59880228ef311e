ghost use Rattle.std.specs.Prelude.{◌≡◌};
ghost use Rattle.api_calls.specs.Methods.{methods_of};
ghost use Rattle.api_calls.specs.declared.fault.ApiFault.TheVariants.{Memory as NoMemory};

use query_text::QueryFault;
use rdf_term::{Memory, Text};

/// The methods of a resource. A name lists them in the order of the field `Allow`.
#[derive(Clone, Copy, Debug, PartialEq, Eq)]
pub enum Allow {
    /// The protocol, the list of repositories, contexts and size.
    Get,
    /// A repository, which answers queries.
    GetPost,
    /// The statements of a repository.
    GetPostPutDelete,
    /// The namespaces of a repository.
    GetDelete,
    /// One namespace.
    GetPutDelete,
    /// The transactions of a repository.
    Post,
    /// One transaction.
    PostPutDelete,
}

impl Allow {
    /// The value of the field `Allow` (RFC 9110, section 10.2.1).
    pub fn methods(self) -> &'static [u8]
        ensures { result.now ≡ methods_of self }
    {
        match self {
            Allow::Get => b"GET",
            Allow::GetPost => b"GET, POST",
            Allow::GetPostPutDelete => b"GET, POST, PUT, DELETE",
            Allow::GetDelete => b"GET, DELETE",
            Allow::GetPutDelete => b"GET, PUT, DELETE",
            Allow::Post => b"POST",
            Allow::PostPutDelete => b"POST, PUT, DELETE",
        }
    }
}

/// Why a request is refused by its form.
#[derive(Debug)]
pub enum ApiFault {
    /// The path names no resource.
    NoResource,
    /// The path names a repository that is not there.
    NoRepository,
    /// The path names a transaction by what is no name of one.
    BadName,
    /// The resource has not this method, but these.
    Method(Allow),
    /// The body is coded, or of a type that is not taken here.
    Media,
    /// The parameter of this name is bad.
    Parameter(Text),
    /// This line of a document, counted from 1, is none of its grammar.
    Line(u64),
    /// This line of a document, counted from 1, holds a part that is too long.
    LongLine(u64),
    /// The text of a query is refused.
    Query(QueryFault),
    /// The body is no name of a namespace.
    Namespace,
    /// No form on offer is accepted.
    NotAcceptable,
    /// No memory was found.
    Memory,
}

// By hand, since a derived drop is expanded wherever a fault is let go.
impl Drop for ApiFault {
    fn drop(self) {
        match self {
            ApiFault::NoResource => {}
            ApiFault::NoRepository => {}
            ApiFault::BadName => {}
            ApiFault::Method(_) => {}
            ApiFault::Media => {}
            ApiFault::Parameter(name) => drop(name),
            ApiFault::Line(_) => {}
            ApiFault::LongLine(_) => {}
            ApiFault::Query(_) => {}
            ApiFault::Namespace => {}
            ApiFault::NotAcceptable => {}
            ApiFault::Memory => {}
        }
    }
}

impl From<Memory> for ApiFault {
    ghost from_gives = { λ _ fault. fault ≡ NoMemory };

    fn from(_: Memory) -> ApiFault {
        ApiFault::Memory
    }
}
