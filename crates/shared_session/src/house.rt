ghost use Rattle.std.specs.Prelude.{◌≡◌, ◌<◌, ◌≤◌, Some, IfOk, length, slice_get, vec_len};
ghost use Rattle.iso_txn.specs.Repository.{AreAllowed};
ghost use Rattle.shared_repo.specs.Passes.{limits_of};
ghost use Rattle.session.specs.Houses.{AreNames};
ghost use Rattle.shared_session.specs.Houses.{AllOf, AreFirst, HaveLimits, HaveSeats};

use crate::passes::Passes;
use crate::rows::{make_repos, make_rows};
use journal::Limits;
use quad_index::Orders;
use rdf_term::{Memory, Text};
use session::Catalog;
use shared_repo::Repo;
use std::alloc::Global;
use std::marker::Model;

/// Repositories that several workers share. Contracts see their IDs, their limits, and one repository
/// for each ID, in order.
#[derive(Drop)]
pub struct House {
    catalog: Catalog,
    repos: Vec<Repo>,
}

impl Model for House {
    ghost use Rattle.shared_session.specs.Houses.{House, IsHouse};

    ghost Value = { House };

    ghost view = { λ h. record { names = h.catalog.names; limits = h.catalog.limits; repos = h.repos.items } };

    ghost invariant = { λ h. IsHouse (record { names = h.catalog.names; limits = h.catalog.limits; repos = h.repos.items }) };
}

impl House {
    /// A house with a repository for each of these IDs, whose journals have no entry, and the passes of
    /// so many workers, at least one. The contents are kept in these orders, one to six.
    pub fn new(
        alloc: Global,
        ids: &[Text],
        orders: &Orders,
        limits: Limits,
        seats: u32,
    ) -> Result<(House, Vec<Passes>), Memory>
        requires ids { AreNames ids.now }
        requires some { 1 ≤ length orders.now }
        requires few { length orders.now ≤ 6 }
        requires limits { AreAllowed limits }
        requires seats { 0 < seats }
        ensures names { IfOk result (λ it. it.0.names ≡ ids.now) }
        ensures limits { IfOk result (λ it. it.0.limits ≡ limits) }

        // Each worker has a pass of each repository, and that of worker i has the seat number i.
        ensures passes { IfOk result (λ it. AllOf it.0 it.1.items) }
        ensures first { IfOk result (λ it. AreFirst 0 it.1.items) }

        // These are all passes of each repository.
        ensures count { IfOk result (λ it. vec_len it.1 ≡ seats) }
        ensures seats { IfOk result (λ it. HaveSeats seats it.0.repos) }
    {
        let count = ids.len();
        let catalog = Catalog::new(alloc, ids, limits)?;
        let mut rows = make_rows(alloc, seats, count)?;
        let repos = make_repos(
            alloc,
            count,
            count,
            orders,
            limits,
            seats,
            rows.as_mut_slice(),
        )?;
        Ok((House { catalog, repos }, rows))
    }

    /// The IDs.
    pub fn names(&self) -> &[Text]
        ensures names { result.now ≡ self.now.names }
        ensures are { AreNames self.now.names }
        ensures limits { AreAllowed self.now.limits }
        ensures count { length self.now.repos ≡ length self.now.names }
    {
        self.catalog.names()
    }

    /// The repository of this number.
    pub fn repo(&self, number: usize) -> &Repo
        requires { number < length self.now.names }
        ensures repo { slice_get self.now.repos number ≡ Some result.now }
        ensures limits { limits_of result.now ≡ self.now.limits }
        ensures count { length self.now.repos ≡ length self.now.names }
    {
        &self.repos[number]
    }

    /// The repositories, in the order of the names.
    pub fn into_repos(self) -> Vec<Repo>
        ensures repos { result.items ≡ self.repos }
        ensures count { length self.repos ≡ length self.names }
        ensures limits { HaveLimits self.limits self.repos }
        ensures allowed { AreAllowed self.limits }
    {
        let House { catalog: _, repos } = self;
        repos
    }
}
