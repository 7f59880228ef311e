ghost use Rattle.std.specs.Prelude.{◌≡◌, ◌≤◌, ◌&&◌, ◌++◌, true, not, length, IfOk, OnOk, OnErr};
ghost use Rattle.std.specs.List.{filter};
ghost use Rattle.std.specs.List.Sorted.{IsStrictlySortedBy};
ghost use Rattle.std.specs.BTreeSet.{insert_key};
ghost use Rattle.std.specs.Ordering.{eq_by_cmp};
ghost use Rattle.rdf_term.specs.Matching.{matches};
ghost use Rattle.rdf_term.specs.Statement.{Statement};
ghost use Rattle.rdf_term.specs.Order.{quad_cmp};
ghost use Rattle.rdf_term.specs.Sets.{in_order};
ghost use Rattle.quad_index.specs.Contents.{is_in};
ghost use Rattle.quad_index.specs.Letters.{IsChosen};

use crate::code::{self, Code};
use crate::dictionary::Dictionary;
use crate::run::{self, Run};
use crate::{Order, Orders, Test, carry, runs};
use rdf_term::{Duplicate, GraphPick, Memory, Pattern, Quad, Quads, Scan};
use std::alloc::Global;
use std::marker::Model;

/// A set of quads that is kept in term order and in one to six orders more. Contracts see it as the
/// strictly ascending list of its quads and the list of its orders.
///
/// Each term is stored once, and a quad is four numbers in each order.
#[derive(Drop)]
pub struct Index {
    alloc: Global,
    terms: Dictionary,
    codes: Vec<Code>,
    runs: Vec<Run>,
}

impl Model for Index {
    ghost use Rattle.std.specs.Prelude.{map};
    ghost use Rattle.quad_index.specs.Codes.{decode};
    ghost use Rattle.quad_index.specs.Contents.{Contents, IsWhole};

    ghost Value = { Contents };

    ghost view = { λ index. record { quads = map (decode index.terms) index.codes.items; orders = map (λ run. run.order) index.runs.items } };

    ghost invariant = { λ index. IsWhole index.terms index.codes.items index.runs.items };
}

/// Whether a pattern gives no part.
fn is_everything(pattern: &Pattern) -> bool
    ensures { result ≡ true → (q : Statement) → matches pattern.now q ≡ true }
{
    pattern.s.is_none()
        && pattern.p.is_none()
        && pattern.o.is_none()
        && matches!(pattern.c, GraphPick::Any)
}

impl Index {
    /// The set of these quads, kept in these orders.
    fn made(alloc: Global, orders: &[Order], quads: &[Quad]) -> Result<Index, Memory>
        requires { 1 ≤ length orders.now }
        ensures quads { IfOk result (λ index. index.quads ≡ in_order quads.now) }
        ensures orders { IfOk result (λ index. index.orders ≡ orders.now) }
    {
        let terms = Dictionary::of(alloc, quads)?;
        let codes = terms.codes_of(alloc, quads)?;
        let codes = code::set_of(codes);
        let runs = runs::build(alloc, orders, codes.as_slice())?;
        Ok(Index {
            alloc,
            terms,
            codes,
            runs,
        })
    }

    /// The set of these quads, kept in these orders, one to six.
    pub fn build(alloc: Global, orders: &Orders, quads: &Quads) -> Result<Index, Memory>
        requires some { 1 ≤ length orders.now }
        requires few { length orders.now ≤ 6 }
        ensures quads { IfOk result (λ index. index.quads ≡ in_order quads.now) }
        ensures orders { IfOk result (λ index. index.orders ≡ orders.now) }
    {
        let index = Index::made(alloc, orders.as_slice(), quads.as_slice())?;
        Ok(index)
    }

    /// The set of these quads, kept in the orders of this index.
    pub fn with_quads(&self, alloc: Global, quads: &Quads) -> Result<Index, Memory>
        ensures quads { IfOk result (λ index. index.quads ≡ in_order quads.now) }
        ensures orders { IfOk result (λ index. index.orders ≡ self.now.orders) }
    {
        let orders = runs::orders(alloc, self.runs.as_slice())?;
        let index = Index::made(alloc, orders.as_slice(), quads.as_slice())?;
        Ok(index)
    }

    /// This set without some quads and then with others, in the orders of this index. Quads of both are
    /// there. It copies each term once, and looks for none but those of the given quads, so that it
    /// costs less than building the set again.
    pub fn changed(&self, alloc: Global, added: &Quads, removed: &Quads) -> Result<Index, Memory>
        ensures quads { IfOk result (λ index. index.quads ≡ in_order (filter (λ q. not (is_in q removed.now)) self.now.quads ++ added.now)) }
        ensures orders { IfOk result (λ index. index.orders ≡ self.now.orders) }
    {
        let codes = self.codes.as_slice();
        let left = carry::codes_without(alloc, &self.terms, codes, removed.as_slice())?;
        let left = left.as_slice();
        let added = added.as_slice();
        let mut all = carry::used(alloc, &self.terms, left)?;
        let mut new = Dictionary::of(alloc, added)?.into_terms();
        all.append(&mut new)?;
        let terms = Dictionary::from_terms(all)?;
        let mut codes = carry::carried(alloc, &terms, &self.terms, left)?;
        codes.extend_from_slice(terms.codes_of(alloc, added)?.as_slice())?;
        let codes = code::set_of(codes);
        let runs = runs::of_codes(alloc, self.runs.as_slice(), codes.as_slice())?;
        Ok(Index {
            alloc,
            terms,
            codes,
            runs,
        })
    }

    /// All quads.
    fn all(&self, alloc: Global) -> Result<Quads, Memory>
        ensures { IfOk result (λ quads. quads ≡ self.now.quads) }
    {
        let quads = self.terms.quads(alloc, self.codes.as_slice())?;
        Ok(quads)
    }

    /// Whether a quad is in the set.
    fn holds(&self, quad: &Quad) -> bool
        ensures found { result ≡ is_in quad.now self.now.quads }
        ensures ascending { IsStrictlySortedBy quad_cmp self.now.quads }
    {
        let _codes = &self.codes;
        let Some(code) = self.terms.code_of(quad) else {
            return false;
        };
        match self.codes.as_slice().binary_search(&code) {
            Ok(_) => true,
            Err(_) => false,
        }
    }

    /// Adds a quad that is not there and has a term that no quad has. Without memory the set stays as
    /// it was.
    fn add_with_terms(&mut self, quad: &Quad) -> Result<(), Memory>
        requires { IsStrictlySortedBy quad_cmp self.old.quads }
        ensures quads { OnOk result (self.new.quads ≡ insert_key quad_cmp self.old.quads quad.now) }
        ensures memory { OnErr result (self.new.quads ≡ self.old.quads) }
        ensures orders { self.new.orders ≡ self.old.orders }
    {
        let alloc = self.alloc;
        let mut quads = self.all(alloc)?;
        quads.push(quad.copy(alloc)?)?;
        let index = self.with_quads(alloc, &quads)?;
        *self = index;
        Ok(())
    }

    /// Adds a quad, and answers whether the set changed. Without memory it stays as it was.
    pub fn insert(&mut self, quad: &Quad) -> Result<bool, Memory>
        ensures changed { IfOk result (λ changed. changed ≡ not (is_in quad.now self.old.quads)) }
        ensures quads { OnOk result (self.new.quads ≡ insert_key quad_cmp self.old.quads quad.now) }
        ensures memory { OnErr result (self.new.quads ≡ self.old.quads) }
        ensures orders { self.new.orders ≡ self.old.orders }
    {
        if self.holds(quad) {
            return Ok(false);
        }
        let Some(code) = self.terms.code_of(quad) else {
            self.add_with_terms(quad)?;
            return Ok(true);
        };
        let alloc = self.alloc;
        let codes = code::with(alloc, self.codes.as_slice(), code)?;
        let runs = runs::of_codes(alloc, self.runs.as_slice(), codes.as_slice())?;
        self.codes = codes;
        self.runs = runs;
        Ok(true)
    }

    /// Removes a quad, and answers whether the set changed. Without memory it stays as it was.
    pub fn remove(&mut self, quad: &Quad) -> Result<bool, Memory>
        ensures changed { IfOk result (λ changed. changed ≡ is_in quad.now self.old.quads) }
        ensures quads { OnOk result (self.new.quads ≡ filter (λ q. not (eq_by_cmp quad_cmp q quad.now)) self.old.quads) }
        ensures memory { OnErr result (self.new.quads ≡ self.old.quads) }
        ensures orders { self.new.orders ≡ self.old.orders }
    {
        let Some(code) = self.terms.code_of(quad) else {
            return Ok(false);
        };
        if !self.holds(quad) {
            return Ok(false);
        }
        let alloc = self.alloc;
        let codes = code::without(alloc, self.codes.as_slice(), &code)?;
        let runs = runs::of_codes(alloc, self.runs.as_slice(), codes.as_slice())?;
        self.codes = codes;
        self.runs = runs;
        Ok(true)
    }

    /// The configured order with the longest run of leading letters whose parts the pattern gives,
    /// the earlier configured one of two that are as good. A graph is given by `One` alone.
    pub fn choose(&self, pattern: &Pattern) -> Order
        ensures { IsChosen pattern.now self.now.orders result }
    {
        let best = runs::best(self.runs.as_slice(), pattern);
        self.runs[best].order()
    }

    /// Whether a quad is in the set. It takes no memory.
    pub fn has(&self, quad: &Quad) -> bool
        ensures { result ≡ is_in quad.now self.now.quads }
    {
        self.holds(quad)
    }

    /// The number of quads.
    pub fn len(&self) -> u64
        ensures len { result ≡ length self.now.quads }
        ensures ascending { IsStrictlySortedBy quad_cmp self.now.quads }
    {
        let _runs = &self.runs;
        self.codes.len() as u64
    }

    /// The number of quads that match the pattern. It takes no memory.
    pub fn count(&self, pattern: &Pattern) -> u64
        ensures { result ≡ length (filter (matches pattern.now) self.now.quads) }
    {
        let _codes = &self.codes;
        if is_everything(pattern) {
            return self.codes.len() as u64;
        }
        let Some(bounds) = self.terms.bounds(pattern) else {
            return 0;
        };
        let (order, keys) = runs::near(
            self.codes.as_slice(),
            self.runs.as_slice(),
            pattern,
            &bounds,
        );
        run::count_within(&order, keys, &bounds.0, &bounds.1) as u64
    }

    /// The number of quads that two patterns match and that pass a test. It takes no memory, and looks
    /// at those that can match the one pattern by the leading parts of an order, or at those that can
    /// match the other one, whichever are fewer.
    pub fn count_both<T: Test>(&self, pattern: &Pattern, other: &Pattern, test: &T) -> u64
        ensures { result ≡ length (filter (λ q. matches pattern.now q && (matches other.now q && T.passes test.now q)) self.now.quads) }
    {
        let (codes, runs) = (self.codes.as_slice(), self.runs.as_slice());
        let Some(bounds) = self.terms.bounds(pattern) else {
            return 0;
        };
        let Some(others) = self.terms.bounds(other) else {
            return 0;
        };
        let (order, keys) = runs::near(codes, runs, pattern, &bounds);
        let (other_order, other_keys) = runs::near(codes, runs, other, &others);
        if keys.len() <= other_keys.len() {
            run::count_found(&self.terms, &order, keys, &bounds, &others, test) as u64
        } else {
            run::count_found(
                &self.terms,
                &other_order,
                other_keys,
                &bounds,
                &others,
                test,
            ) as u64
        }
    }

    /// The quads that match the pattern, found by the order that fits it best.
    fn matching(&self, alloc: Global, pattern: &Pattern) -> Result<Quads, Memory>
        ensures value { IfOk result (λ quads. quads ≡ filter (matches pattern.now) self.now.quads) }
        ensures ascending { IfOk result (λ quads. IsStrictlySortedBy quad_cmp quads) }
    {
        let _codes = &self.codes;
        let Some((low, high)) = self.terms.bounds(pattern) else {
            return Ok(Quads::new(alloc));
        };
        let (order, keys) = runs::serving(self.codes.as_slice(), self.runs.as_slice(), pattern);
        let found = run::matching(alloc, &order, keys, &low, &high)?;
        let found = code::set_of(found);
        let quads = self.terms.quads(alloc, found.as_slice())?;
        Ok(quads)
    }
}

impl Scan for Index {
    ghost content = { λ index. index.quads };

    fn scan(&self, alloc: Global, pattern: &Pattern) -> Result<Quads, Memory> {
        self.matching(alloc, pattern)
    }
}
