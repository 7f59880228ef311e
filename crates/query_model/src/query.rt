use crate::table::Names1;
use rdf_term::{Duplicate, Memory, Seq, Term, Text};
use std::alloc::Global;

/// What stands at a place of a triple pattern.
#[derive(Debug, Drop)]
pub enum Slot {
    /// A variable, by its name.
    Var(Text),
    /// A blank node, by its label: a variable that is never projected.
    Blank(Text),
    /// A term.
    Fixed(Term),
}

/// The graphs in which a triple pattern is looked for.
#[derive(Debug, Drop)]
pub enum Scope {
    /// Every graph, the absent one too: the pattern stands outside GRAPH.
    Any,
    /// The named graph that the slot of GRAPH gives.
    Graph(Slot),
}

/// A triple pattern of a query, with its scope.
#[derive(Debug, Drop)]
pub struct TriplePattern {
    pub s: Slot,
    pub p: Slot,
    pub o: Slot,
    pub g: Scope,
}

/// Triple patterns in the order of the text.
pub type Patterns = Seq<TriplePattern>;

/// What is left of the sorted solutions: those behind the first `offset`, at most `limit` of them.
#[derive(Clone, Copy, Debug)]
pub struct Cut {
    pub limit: Option<u64>,
    pub offset: u64,
}

/// A query.
#[derive(Debug)]
pub enum Query {
    /// Asks for a table of the values of some variables.
    Select {
        /// Whether equal rows are dropped.
        distinct: bool,
        /// The variables, in the order of the columns.
        vars: Names1,
        group: Patterns,
        cut: Cut,
    },
    /// Asks whether there is a solution.
    Ask {
        group: Patterns,
    },
    /// Asks for the triples that the template makes of the solutions.
    Construct {
        template: Patterns,
        group: Patterns,
        cut: Cut,
    },
}

// By hand: a derived drop is expanded, down to each text, wherever a query is let go.
impl Drop for Query {
    fn drop(self) {
        match self {
            Query::Select {
                distinct: _,
                vars,
                group,
                cut: _,
            } => {
                drop(vars);
                drop(group);
            }
            Query::Ask { group } => drop(group),
            Query::Construct {
                template,
                group,
                cut: _,
            } => {
                drop(template);
                drop(group);
            }
        }
    }
}

impl Duplicate for Slot {
    fn copy(&self, alloc: Global) -> Result<Slot, Memory> {
        Ok(match self {
            Slot::Var(name) => Slot::Var(name.copy(alloc)?),
            Slot::Blank(label) => Slot::Blank(label.copy(alloc)?),
            Slot::Fixed(term) => Slot::Fixed(term.copy(alloc)?),
        })
    }
}

impl Duplicate for Scope {
    fn copy(&self, alloc: Global) -> Result<Scope, Memory> {
        Ok(match self {
            Scope::Any => Scope::Any,
            Scope::Graph(slot) => Scope::Graph(slot.copy(alloc)?),
        })
    }
}

impl Duplicate for TriplePattern {
    fn copy(&self, alloc: Global) -> Result<TriplePattern, Memory> {
        Ok(TriplePattern {
            s: self.s.copy(alloc)?,
            p: self.p.copy(alloc)?,
            o: self.o.copy(alloc)?,
            g: self.g.copy(alloc)?,
        })
    }
}

impl Duplicate for Cut {
    fn copy(&self, _alloc: Global) -> Result<Cut, Memory> {
        Ok(*self)
    }
}

impl Duplicate for Query {
    fn copy(&self, alloc: Global) -> Result<Query, Memory> {
        Ok(match self {
            Query::Select {
                distinct,
                vars,
                group,
                cut,
            } => Query::Select {
                distinct: *distinct,
                vars: vars.copy(alloc)?,
                group: group.copy(alloc)?,
                cut: *cut,
            },
            Query::Ask { group } => Query::Ask {
                group: group.copy(alloc)?,
            },
            Query::Construct {
                template,
                group,
                cut,
            } => Query::Construct {
                template: template.copy(alloc)?,
                group: group.copy(alloc)?,
                cut: *cut,
            },
        })
    }
}
