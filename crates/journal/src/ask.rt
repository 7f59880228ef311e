use query_model::Query;
use rdf_term::{Distinct, Duplicate, Graph, Memory, Term};
use std::alloc::Global;

/// Distinct graphs. None at all stand for every graph.
pub type Graphs = Distinct<Graph>;

/// What is asked of a content.
#[derive(Debug)]
pub enum Ask {
    /// The answer of a query.
    Query(Query),
    /// The quads with these parts in one of these graphs. A part that is not given is any term.
    List {
        s: Option<Term>,
        p: Option<Term>,
        o: Option<Term>,
        contexts: Graphs,
    },
    /// The number of quads in these graphs.
    Size {
        contexts: Graphs,
    },
    /// The names of the graphs.
    Contexts,
}

// By hand, since a derived drop is expanded down to each text wherever an ask is let go.
impl Drop for Ask {
    fn drop(self) {
        match self {
            Ask::Query(query) => drop(query),
            Ask::List { s, p, o, contexts } => {
                drop(s);
                drop(p);
                drop(o);
                drop(contexts);
            }
            Ask::Size { contexts } => drop(contexts),
            Ask::Contexts => {}
        }
    }
}

impl Duplicate for Ask {
    fn copy(&self, alloc: Global) -> Result<Ask, Memory> {
        Ok(match self {
            Ask::Query(query) => Ask::Query(query.copy(alloc)?),
            Ask::List { s, p, o, contexts } => Ask::List {
                s: s.copy(alloc)?,
                p: p.copy(alloc)?,
                o: o.copy(alloc)?,
                contexts: contexts.copy(alloc)?,
            },
            Ask::Size { contexts } => Ask::Size {
                contexts: contexts.copy(alloc)?,
            },
            Ask::Contexts => Ask::Contexts,
        })
    }
}
