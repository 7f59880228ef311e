//! A house as one worker uses it.
ghost use Rattle.std.specs.Prelude.{◌≡◌};

use crate::house::House;
use crate::passes::Passes;
use change_set::Changes;
use iso_txn::Pinned;
use journal::{Ask, JournalFull, Level, NamesOp, Reply, StoreFault, Txn};
use query_model::Query;
use rdf_term::Text;
use repo_store::first_step_is_next;
use session::Store;
use std::sync::Wait;

/// A house, and the handle by which its calls wait.
#[derive(Drop)]
pub(crate) struct Shared<'a, R> {
    pub rt: &'a R,
    pub house: &'a House,
}

impl<'a, R: Wait> Store for Shared<'a, R> {
    ghost use Rattle.shared_session.specs.Houses.{IsOf, MayStep, journals, numbers};

    type Pass = Passes;

    ghost journals = { journals };

    ghost seats = { numbers };

    ghost limits = { λ s. s.house.now.limits };

    ghost names = { λ s. s.house.now.names };

    ghost serves = { λ s passes. IsOf s.house.now passes };

    ghost holds = { λ passes repo t query number pinned. MayStep passes.list.items repo t query number pinned };

    fn names_of(&self) -> &[Text] {
        self.house.names()
    }

    fn begin(
        &self,
        pass: &mut Passes,
        repo: u32,
        level: Level,
    ) -> Result<(u64, Reply), StoreFault> {
        let at = repo as usize;
        self.house
            .repo(at)
            .begin(self.rt, &mut pass.list[at], level)
    }

    fn pin(
        &self,
        pass: &mut Passes,
        repo: u32,
        txn: Option<Txn>,
        ask: &Ask,
    ) -> Result<(u64, Pinned), StoreFault> {
        let at = repo as usize;
        self.house
            .repo(at)
            .pin(self.rt, &mut pass.list[at], txn, ask)
    }

    fn step(
        &self,
        pass: &mut Passes,
        repo: u32,
        txn: Txn,
        query: &Query,
        number: u32,
        pinned: &mut Pinned,
    ) -> Result<u64, StoreFault> {
        first_step_is_next();
        let at = repo as usize;
        self.house
            .repo(at)
            .step(self.rt, &mut pass.list[at], txn, query, number, pinned)
    }

    fn write(
        &self,
        pass: &mut Passes,
        repo: u32,
        txn: Option<Txn>,
        changes: &Changes,
    ) -> Result<(u64, Reply), StoreFault> {
        let at = repo as usize;
        self.house
            .repo(at)
            .write(self.rt, &mut pass.list[at], txn, changes)
    }

    fn commit(&self, pass: &mut Passes, repo: u32, txn: Txn) -> Result<(u64, Reply), StoreFault> {
        let at = repo as usize;
        self.house.repo(at).commit(self.rt, &mut pass.list[at], txn)
    }

    fn rollback(&self, pass: &mut Passes, repo: u32, txn: Txn) -> Result<(u64, Reply), StoreFault> {
        let at = repo as usize;
        match self
            .house
            .repo(at)
            .rollback(self.rt, &mut pass.list[at], txn)
        {
            Ok(made) => Ok(made),
            Err(JournalFull) => Err(StoreFault::JournalFull),
        }
    }

    fn ping(&self, pass: &mut Passes, repo: u32, txn: Txn) -> Result<(u64, Reply), StoreFault> {
        let at = repo as usize;
        match self.house.repo(at).ping(self.rt, &mut pass.list[at], txn) {
            Ok(made) => Ok(made),
            Err(JournalFull) => Err(StoreFault::JournalFull),
        }
    }

    fn namespaces(
        &self,
        pass: &mut Passes,
        repo: u32,
        asked: &NamesOp,
    ) -> Result<(u64, Reply), StoreFault> {
        let at = repo as usize;
        self.house
            .repo(at)
            .names(self.rt, &mut pass.list[at], asked)
    }
}
