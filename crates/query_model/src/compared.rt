//! Two queries, tables or answers are equal where all their parts are.
ghost use Rattle.std.specs.Prelude.{◌≡◌, ◌↔◌, IsTrue};
ghost use Rattle.std.specs.Cmp.{partial_equiv_from_equiv};
ghost use Rattle.query_model.specs.Equality.{slot_eq, scope_eq, pattern_eq, cut_eq, query_eq, table_eq, found_eq};
ghost use Rattle.query_model.specs.EqualityLaws.{slot_equiv, scope_equiv, pattern_equiv, cut_equiv, query_equiv, table_equiv, found_equiv};

use crate::{Cut, Found, Query, Scope, Slot, Table, TriplePattern};

impl Slot {
    fn is_same(&self, other: &Slot) -> bool
        ensures { result ≡ slot_eq self.now other.now }
    {
        match (self, other) {
            (Slot::Var(name), Slot::Var(other)) => *name == *other,
            (Slot::Blank(label), Slot::Blank(other)) => *label == *other,
            (Slot::Fixed(term), Slot::Fixed(other)) => *term == *other,
            _ => false,
        }
    }
}

impl PartialEq for Slot {
    ghost eq = { slot_eq };

    ghost laws = { partial_equiv_from_equiv slot_equiv };

    fn eq(&self, other: &Slot) -> bool
        ensures value { result ≡ slot_eq self.now other.now }
        ensures same { IsTrue result ↔ (self.now ≡ other.now) }
    {
        self.is_same(other)
    }
}

impl Eq for Slot {
    ghost laws = { slot_equiv };
}

impl Scope {
    fn is_same(&self, other: &Scope) -> bool
        ensures { result ≡ scope_eq self.now other.now }
    {
        match (self, other) {
            (Scope::Any, Scope::Any) => true,
            (Scope::Graph(slot), Scope::Graph(other)) => *slot == *other,
            _ => false,
        }
    }
}

impl PartialEq for Scope {
    ghost eq = { scope_eq };

    ghost laws = { partial_equiv_from_equiv scope_equiv };

    fn eq(&self, other: &Scope) -> bool
        ensures value { result ≡ scope_eq self.now other.now }
        ensures same { IsTrue result ↔ (self.now ≡ other.now) }
    {
        self.is_same(other)
    }
}

impl Eq for Scope {
    ghost laws = { scope_equiv };
}

impl TriplePattern {
    fn is_same(&self, other: &TriplePattern) -> bool
        ensures { result ≡ pattern_eq self.now other.now }
    {
        self.s == other.s && (self.p == other.p && (self.o == other.o && self.g == other.g))
    }
}

impl PartialEq for TriplePattern {
    ghost eq = { pattern_eq };

    ghost laws = { partial_equiv_from_equiv pattern_equiv };

    fn eq(&self, other: &TriplePattern) -> bool
        ensures value { result ≡ pattern_eq self.now other.now }
        ensures same { IsTrue result ↔ (self.now ≡ other.now) }
    {
        self.is_same(other)
    }
}

impl Eq for TriplePattern {
    ghost laws = { pattern_equiv };
}

impl Cut {
    fn is_same(&self, other: &Cut) -> bool
        ensures { result ≡ cut_eq self.now other.now }
    {
        self.limit == other.limit && self.offset == other.offset
    }
}

impl PartialEq for Cut {
    ghost eq = { cut_eq };

    ghost laws = { partial_equiv_from_equiv cut_equiv };

    fn eq(&self, other: &Cut) -> bool
        ensures value { result ≡ cut_eq self.now other.now }
        ensures same { IsTrue result ↔ (self.now ≡ other.now) }
    {
        self.is_same(other)
    }
}

impl Eq for Cut {
    ghost laws = { cut_equiv };
}

impl Query {
    fn is_same(&self, other: &Query) -> bool
        ensures { result ≡ query_eq self.now other.now }
    {
        match (self, other) {
            (
                Query::Select {
                    distinct,
                    vars,
                    group,
                    cut,
                },
                Query::Select {
                    distinct: others_distinct,
                    vars: others_vars,
                    group: others_group,
                    cut: others_cut,
                },
            ) => {
                *distinct == *others_distinct
                    && (vars.as_slice() == others_vars.as_slice()
                        && (*group == *others_group && *cut == *others_cut))
            }
            (
                Query::Ask { group },
                Query::Ask {
                    group: others_group,
                },
            ) => *group == *others_group,
            (
                Query::Construct {
                    template,
                    group,
                    cut,
                },
                Query::Construct {
                    template: others_template,
                    group: others_group,
                    cut: others_cut,
                },
            ) => {
                *template == *others_template && (*group == *others_group && *cut == *others_cut)
            }
            _ => false,
        }
    }
}

impl PartialEq for Query {
    ghost eq = { query_eq };

    ghost laws = { partial_equiv_from_equiv query_equiv };

    fn eq(&self, other: &Query) -> bool
        ensures value { result ≡ query_eq self.now other.now }
        ensures same { IsTrue result ↔ (self.now ≡ other.now) }
    {
        self.is_same(other)
    }
}

impl Eq for Query {
    ghost laws = { query_equiv };
}

impl Table {
    fn is_same(&self, other: &Table) -> bool
        ensures { result ≡ table_eq self.now other.now }
    {
        self.vars.as_slice() == other.vars.as_slice() && self.rows == other.rows
    }
}

impl PartialEq for Table {
    ghost eq = { table_eq };

    ghost laws = { partial_equiv_from_equiv table_equiv };

    fn eq(&self, other: &Table) -> bool
        ensures value { result ≡ table_eq self.now other.now }
        ensures same { IsTrue result ↔ (self.now ≡ other.now) }
    {
        self.is_same(other)
    }
}

impl Eq for Table {
    ghost laws = { table_equiv };
}

impl Found {
    fn is_same(&self, other: &Found) -> bool
        ensures { result ≡ found_eq self.now other.now }
    {
        match (self, other) {
            (Found::Table(table), Found::Table(other)) => *table == *other,
            (Found::Truth(truth), Found::Truth(other)) => *truth == *other,
            (Found::Quads(quads), Found::Quads(other)) => *quads == *other,
            _ => false,
        }
    }
}

impl PartialEq for Found {
    ghost eq = { found_eq };

    ghost laws = { partial_equiv_from_equiv found_equiv };

    fn eq(&self, other: &Found) -> bool
        ensures value { result ≡ found_eq self.now other.now }
        ensures same { IsTrue result ↔ (self.now ≡ other.now) }
    {
        self.is_same(other)
    }
}

impl Eq for Found {
    ghost laws = { found_equiv };
}
