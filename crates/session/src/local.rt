//! A house of repositories for one caller, and its sessions.
ghost use Rattle.std.specs.Prelude.{◌≡◌, ◌+◌, ◌<◌, ◌≤◌, ◌^◌, ◌∷◌, ◌++◌, map, ℕ, List, [], Ok, Some, IfOk, OnOk, IsTrue, false, length, slice_get, vec_len};
ghost use Rattle.iso_txn.specs.Repository.{AreAllowed};
ghost use Rattle.session.specs.Causes.{Caused, sink_broke, source_broke};
ghost use Rattle.session.specs.Ends.{IsSession};
ghost use Rattle.session.specs.Marks.{AllGrowBy, Moves};
ghost use Rattle.rdf_io.specs.Sending.{Puts};
ghost use Rattle.session.specs.Turns.{ground};
ghost use Rattle.session.specs.Houses.{AreNames, AreOf, IsOwn, house_journals, journals_of, new_repo};

use crate::catalog::Catalog;
use crate::report::SessionReport;
use crate::store::Store;
use crate::visit::{Visit, serve};
use change_set::Changes;
use iso_txn::Pinned;
use journal::{Ask, Level, Limits, NamesOp, Reply, StoreFault, Txn};
use quad_index::Orders;
use query_model::Query;
use rdf_io::{OpenGate, Sink, Source};
use rdf_term::{Memory, Text};
use repo_store::{SoleRepo, first_step_is_next};
use std::alloc::Global;
use std::marker::Model;

/// Repositories for one caller, each with its journal, which takes no memory. Contracts see their IDs,
/// their limits and one repository for each ID, in order.
#[derive(Drop)]
pub struct LocalHouse {
    catalog: Catalog,
    repos: Vec<SoleRepo>,
}

impl Model for LocalHouse {
    ghost use Rattle.session.specs.Houses.{AreOf, House};

    ghost Value = { House };

    ghost view = { λ h. record { names = h.catalog.names; limits = h.catalog.limits; repos = h.repos.items } };

    ghost invariant = { λ h. AreOf h.catalog.limits h.catalog.names h.repos.items };
}

/// Adds a new repository to a list.
fn add_new(
    alloc: Global,
    repos: &mut Vec<SoleRepo>,
    name: &Text,
    orders: &Orders,
    limits: Limits,
) -> Result<(), Memory>
    requires some { 1 ≤ length orders.now }
    requires few { length orders.now ≤ 6 }
    requires limits { AreAllowed limits }
    ensures { OnOk result (repos.new.items ≡ repos.old.items ++ map (new_repo limits) (name.now ∷ [])) }
{
    repos.push(SoleRepo::new(alloc, orders, limits)?)?;
    Ok(())
}

/// A new repository for each of these names.
fn new_repos(
    alloc: Global,
    names: &[Text],
    orders: &Orders,
    limits: Limits,
) -> Result<Vec<SoleRepo>, Memory>
    requires some { 1 ≤ length orders.now }
    requires few { length orders.now ≤ 6 }
    requires limits { AreAllowed limits }
    ensures { IfOk result (λ it. it.items ≡ map (new_repo limits) names.now) }
{
    let mut repos = Vec::new(alloc);
    for name in names {
        add_new(alloc, &mut repos, name, orders, limits)?;
    }
    Ok(repos)
}

impl LocalHouse {
    /// A house with a repository for each of these IDs, whose journals have no entry. The contents are
    /// kept in these orders, one to six.
    pub fn new(
        alloc: Global,
        ids: &[Text],
        orders: &Orders,
        limits: Limits,
    ) -> Result<LocalHouse, Memory>
        requires ids { AreNames ids.now }
        requires some { 1 ≤ length orders.now }
        requires few { length orders.now ≤ 6 }
        requires limits { AreAllowed limits }
        ensures names { IfOk result (λ house. house.names ≡ ids.now) }
        ensures limits { IfOk result (λ house. house.limits ≡ limits) }
        ensures journals { IfOk result (λ house. (repo : ℕ) → house_journals house repo ≡ []) }
    {
        let catalog = Catalog::new(alloc, ids, limits)?;
        let repos = new_repos(alloc, ids, orders, limits)?;
        Ok(LocalHouse { catalog, repos })
    }
}

impl Store for Catalog {
    ghost use Rattle.session.specs.Houses.{AreOf, MayStep, journals_of};

    type Pass = Vec<SoleRepo>;

    ghost journals = { λ pass. journals_of pass.items };

    ghost seats = { λ pass repo. 0 };

    ghost limits = { λ c. c.limits };

    ghost names = { λ c. c.names };

    ghost serves = { λ c pass. AreOf c.limits c.names pass.items };

    ghost holds = { λ pass repo t query number pinned. MayStep pass.items repo t query number pinned };

    fn names_of(&self) -> &[Text] {
        self.names()
    }

    fn begin(
        &self,
        pass: &mut Vec<SoleRepo>,
        repo: u32,
        level: Level,
    ) -> Result<(u64, Reply), StoreFault> {
        pass[repo as usize].begin(level)
    }

    fn pin(
        &self,
        pass: &mut Vec<SoleRepo>,
        repo: u32,
        txn: Option<Txn>,
        ask: &Ask,
    ) -> Result<(u64, Pinned), StoreFault> {
        pass[repo as usize].pin(txn, ask)
    }

    fn step(
        &self,
        pass: &mut Vec<SoleRepo>,
        repo: u32,
        txn: Txn,
        query: &Query,
        number: u32,
        pinned: &mut Pinned,
    ) -> Result<u64, StoreFault> {
        first_step_is_next();
        pass[repo as usize].step(txn, query, number, pinned)
    }

    fn write(
        &self,
        pass: &mut Vec<SoleRepo>,
        repo: u32,
        txn: Option<Txn>,
        changes: &Changes,
    ) -> Result<(u64, Reply), StoreFault> {
        pass[repo as usize].write(txn, changes)
    }

    fn commit(
        &self,
        pass: &mut Vec<SoleRepo>,
        repo: u32,
        txn: Txn,
    ) -> Result<(u64, Reply), StoreFault> {
        pass[repo as usize].commit(txn)
    }

    fn rollback(
        &self,
        pass: &mut Vec<SoleRepo>,
        repo: u32,
        txn: Txn,
    ) -> Result<(u64, Reply), StoreFault> {
        pass[repo as usize].rollback(txn)
    }

    fn ping(
        &self,
        pass: &mut Vec<SoleRepo>,
        repo: u32,
        txn: Txn,
    ) -> Result<(u64, Reply), StoreFault> {
        pass[repo as usize].ping(txn)
    }

    fn namespaces(
        &self,
        pass: &mut Vec<SoleRepo>,
        repo: u32,
        asked: &NamesOp,
    ) -> Result<(u64, Reply), StoreFault> {
        pass[repo as usize].names(asked)
    }
}

/// Serves one connection on a house for one caller: requests are read from the source, in whatever
/// pieces it gives them, and answered to the sink, in order.
///
/// The report tells how the session ended, and for each request how many entries it made, where they
/// stand, and how it was answered. A fault of the source or of the sink ends the session, and so does a
/// frame that is refused, a request that closes, and the end of the stream between two requests.
pub fn serve_local<S: Source, K: Sink>(
    alloc: Global,
    house: &mut LocalHouse,
    source: &mut S,
    sink: &mut K,
) -> SessionReport
    // The house keeps its IDs and its limits.
    ensures house { (house.new.names ≡ house.old.names) × (house.new.limits ≡ house.old.limits) }

    // Each journal begins with what it was, and past that its entries are exactly those of the session,
    // at the marks, in order.
    ensures moves { Moves (λ repo. 0) (house_journals house.old) (house_journals house.new) result.marks.items }

    // No one else makes entries: all have the seat number 0, and no journal has more than the limits
    // allow. So each journal is what it was, followed by the entries at the marks, in order, and by no
    // other.
    ensures own { (repo : ℕ) → IsOwn house.new.limits (house_journals house.new repo) }
    ensures grow { AllGrowBy (house_journals house.old) (house_journals house.new) result.marks.items }

    // Where the source tells its bytes, the requests cut from them have right turns, by the journals at
    // the end, and what is written is their text.
    ensures session { (b : List ℕ) → S.left source.old ≡ Some b → (text : List ℕ) × Puts (K.taken sink.old) (K.taken sink.new) text
        × IsSession (ground house.new.names house.new.limits (house_journals house.new) (λ repo. 0)) b (S.left source.new)
        result.end result.turns.items result.marks.items text }

    // A fault is answered only where its object failed in this call, and none is passed over.
    ensures source { Caused (source_broke result.end) (S.faults source.old) (S.faults source.new) }
    ensures sink { Caused (sink_broke result.end) (K.faults sink.old) (K.faults sink.new) }
    ensures sound { S.sound source.old → (source_broke result.end ≡ false) × S.sound source.new }
{
    house.serve(alloc, source, sink)
}

impl LocalHouse {
    /// The same as a method, where the house's parts are at hand.
    fn serve<S: Source, K: Sink>(
        &mut self,
        alloc: Global,
        source: &mut S,
        sink: &mut K,
    ) -> SessionReport
        ensures house { (self.new.names ≡ self.old.names) × (self.new.limits ≡ self.old.limits) }
        ensures moves { Moves (λ repo. 0) (house_journals self.old) (house_journals self.new) result.marks.items }
        ensures own { (repo : ℕ) → IsOwn self.new.limits (house_journals self.new repo) }
        ensures grow { AllGrowBy (house_journals self.old) (house_journals self.new) result.marks.items }
        ensures session { (b : List ℕ) → S.left source.old ≡ Some b → (text : List ℕ) × Puts (K.taken sink.old) (K.taken sink.new) text
            × IsSession (ground self.new.names self.new.limits (house_journals self.new) (λ repo. 0)) b (S.left source.new)
            result.end result.turns.items result.marks.items text }
        ensures source { Caused (source_broke result.end) (S.faults source.old) (S.faults source.new) }
        ensures sink { Caused (sink_broke result.end) (K.faults sink.old) (K.faults sink.new) }
        ensures sound { S.sound source.old → (source_broke result.end ≡ false) × S.sound source.new }
    {
        let visit = Visit {
            worker: 0,
            first: 0,
        };
        serve(
            alloc,
            &self.catalog,
            &mut self.repos,
            source,
            sink,
            &OpenGate,
            visit,
        )
    }
}
