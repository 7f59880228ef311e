//! What a session asks of the repositories that it serves.
ghost use Rattle.std.specs.Prelude.{◌≡◌, ℕ, List, ◌+◌, ◌<◌, ◌≤◌, ◌^◌, length, IfOk, IfErr, IsTrue};
ghost use Rattle.std.specs.List.{list_all};
ghost use Rattle.api_replies.specs.Ids.{is_id};
ghost use Rattle.query_model.specs.Solutions.{lookups_of};
ghost use Rattle.journal.specs.declared.ask.Ask.TheVariants as asks;
ghost use Rattle.journal.specs.declared.level.Level.TheVariants as levels;
ghost use Rattle.journal.specs.declared.op.Op.TheVariants as op;
ghost use Rattle.repo_store.specs.Stores.{answered};
ghost use Rattle.session.specs.Marks.{Journals};
ghost use Rattle.session.specs.Stores.{Adds, Fails, Replies, nothing_pinned};

use change_set::Changes;
use iso_txn::Pinned;
use journal::{Ask, Level, NamesOp, Reply, StoreFault, Txn};
use query_model::Query;
use rdf_term::Text;

/// Several repositories, each with a journal of its own, and what one caller has seen of them: its
/// pass.
///
/// Each call but `names_of` makes one entry in the journal of a repository, under the seat number that
/// the pass has there, and answers its place. Other callers may have made entries before it. After a
/// fault there is no entry of this caller.
pub trait Store {
    ghost use Rattle.iso_txn.specs.Repository.{PinnedRead};
    ghost use Rattle.journal.specs.declared.limits.Limits.{Limits};
    ghost use Rattle.journal.specs.declared.txn.Txn.{Txn as SeenTxn};
    ghost use Rattle.query_model.specs.declared.query.Query.{Query as SeenQuery};

    /// What a caller has seen.
    type Pass;

    /// The journal of each repository, as far as the pass has seen it.
    ghost journals: { Self.Pass → Journals };

    /// The number of the pass's seat in each repository.
    ghost seats: { Self.Pass → ℕ → ℕ };

    /// The limits of each repository.
    ghost limits: { Self → Limits };

    /// The IDs of the repositories, in the order of their numbers.
    ghost names: { Self → List (List ℕ) };

    /// The pass is one of this store, and holds nothing.
    ghost serves: { Self → Self.Pass → Type 0 };

    /// This Step of the query may be the seat's next entry in the repository, and what is pinned has the
    /// views of the Steps before it.
    ghost holds: { Self.Pass → ℕ → SeenTxn → SeenQuery → ℕ → PinnedRead → Type 0 };

    /// The IDs.
    fn names_of(&self) -> &[Text]
        ensures names { result.now ≡ names self.now }
        ensures some { 1 ≤ length (names self.now) }
        ensures few { length (names self.now) ≤ 16 }
        ensures ids { IsTrue (list_all is_id (names self.now)) }
        ensures places { (limits self.now).places ≤ 2 ^ 62 };

    /// Begins a transaction.
    fn begin(
        &self,
        pass: &mut Self::Pass,
        repo: u32,
        level: Level,
    ) -> Result<(u64, Reply), StoreFault>
        requires serves { serves self.now pass.old }
        requires repo { repo < length (names self.now) }
        ensures pass { serves self.now pass.new × (seats pass.new ≡ seats pass.old) }
        ensures made { IfOk result (λ it. Adds (limits self.now) (seats pass.old) (journals pass.old) (journals pass.new) repo (op.Begin level) it.0
            × Replies (limits self.now) (journals pass.new) repo it.0 it.1) }
        ensures fault { IfErr result (λ f. Fails (limits self.now) (seats pass.old) (journals pass.old) (journals pass.new) repo f) };

    /// Reads, in a transaction or in none. What is found in what is pinned is the reply.
    fn pin(
        &self,
        pass: &mut Self::Pass,
        repo: u32,
        txn: Option<Txn>,
        ask: &Ask,
    ) -> Result<(u64, Pinned), StoreFault>
        requires serves { serves self.now pass.old }
        requires repo { repo < length (names self.now) }
        ensures pass { serves self.now pass.new × (seats pass.new ≡ seats pass.old) }
        ensures made { IfOk result (λ it. Adds (limits self.now) (seats pass.old) (journals pass.old) (journals pass.new) repo (op.Read txn ask.now) it.0
            × Replies (limits self.now) (journals pass.new) repo it.0 (answered it.1 ask.now)) }
        ensures fault { IfErr result (λ f. Fails (limits self.now) (seats pass.old) (journals pass.old) (journals pass.new) repo f) };

    /// Makes the next Step of a query in a READ_COMMITTED transaction. What is found in what is pinned at
    /// the last one is the reply to the query.
    fn step(
        &self,
        pass: &mut Self::Pass,
        repo: u32,
        txn: Txn,
        query: &Query,
        number: u32,
        pinned: &mut Pinned,
    ) -> Result<u64, StoreFault>
        requires serves { serves self.now pass.old }
        requires repo { repo < length (names self.now) }
        requires level { txn.level ≡ levels.ReadCommitted }
        requires number { number < lookups_of query.now }
        requires first { number ≡ 0 → pinned.old ≡ nothing_pinned }
        requires later { 0 < number → holds pass.old repo txn query.now number pinned.old }
        ensures pass { serves self.now pass.new × (seats pass.new ≡ seats pass.old) }
        ensures made { IfOk result (λ place. Adds (limits self.now) (seats pass.old) (journals pass.old) (journals pass.new) repo (op.Step txn query.now number) place) }
        ensures next { IfOk result (λ place. number + 1 < lookups_of query.now → holds pass.new repo txn query.now (number + 1) pinned.new) }
        ensures last { IfOk result (λ place. number + 1 ≡ lookups_of query.now
            → Replies (limits self.now) (journals pass.new) repo place (answered pinned.new (asks.Query query.now))) }
        ensures fault { IfErr result (λ f. Fails (limits self.now) (seats pass.old) (journals pass.old) (journals pass.new) repo f) };

    /// Changes the content, in a transaction or in none.
    fn write(
        &self,
        pass: &mut Self::Pass,
        repo: u32,
        txn: Option<Txn>,
        changes: &Changes,
    ) -> Result<(u64, Reply), StoreFault>
        requires serves { serves self.now pass.old }
        requires repo { repo < length (names self.now) }
        ensures pass { serves self.now pass.new × (seats pass.new ≡ seats pass.old) }
        ensures made { IfOk result (λ it. Adds (limits self.now) (seats pass.old) (journals pass.old) (journals pass.new) repo (op.Write txn changes.now) it.0
            × Replies (limits self.now) (journals pass.new) repo it.0 it.1) }
        ensures fault { IfErr result (λ f. Fails (limits self.now) (seats pass.old) (journals pass.old) (journals pass.new) repo f) };

    /// Commits a transaction.
    fn commit(&self, pass: &mut Self::Pass, repo: u32, txn: Txn) -> Result<(u64, Reply), StoreFault>
        requires serves { serves self.now pass.old }
        requires repo { repo < length (names self.now) }
        ensures pass { serves self.now pass.new × (seats pass.new ≡ seats pass.old) }
        ensures made { IfOk result (λ it. Adds (limits self.now) (seats pass.old) (journals pass.old) (journals pass.new) repo (op.Commit txn) it.0
            × Replies (limits self.now) (journals pass.new) repo it.0 it.1) }
        ensures fault { IfErr result (λ f. Fails (limits self.now) (seats pass.old) (journals pass.old) (journals pass.new) repo f) };

    /// Ends a transaction without its changes.
    fn rollback(
        &self,
        pass: &mut Self::Pass,
        repo: u32,
        txn: Txn,
    ) -> Result<(u64, Reply), StoreFault>
        requires serves { serves self.now pass.old }
        requires repo { repo < length (names self.now) }
        ensures pass { serves self.now pass.new × (seats pass.new ≡ seats pass.old) }
        ensures made { IfOk result (λ it. Adds (limits self.now) (seats pass.old) (journals pass.old) (journals pass.new) repo (op.Rollback txn) it.0
            × Replies (limits self.now) (journals pass.new) repo it.0 it.1) }
        ensures fault { IfErr result (λ f. Fails (limits self.now) (seats pass.old) (journals pass.old) (journals pass.new) repo f) };

    /// Asks whether a transaction is open.
    fn ping(&self, pass: &mut Self::Pass, repo: u32, txn: Txn) -> Result<(u64, Reply), StoreFault>
        requires serves { serves self.now pass.old }
        requires repo { repo < length (names self.now) }
        ensures pass { serves self.now pass.new × (seats pass.new ≡ seats pass.old) }
        ensures made { IfOk result (λ it. Adds (limits self.now) (seats pass.old) (journals pass.old) (journals pass.new) repo (op.Ping txn) it.0
            × Replies (limits self.now) (journals pass.new) repo it.0 it.1) }
        ensures fault { IfErr result (λ f. Fails (limits self.now) (seats pass.old) (journals pass.old) (journals pass.new) repo f) };

    /// Asks or changes the namespaces.
    fn namespaces(
        &self,
        pass: &mut Self::Pass,
        repo: u32,
        asked: &NamesOp,
    ) -> Result<(u64, Reply), StoreFault>
        requires serves { serves self.now pass.old }
        requires repo { repo < length (names self.now) }
        ensures pass { serves self.now pass.new × (seats pass.new ≡ seats pass.old) }
        ensures made { IfOk result (λ it. Adds (limits self.now) (seats pass.old) (journals pass.old) (journals pass.new) repo (op.Names asked.now) it.0
            × Replies (limits self.now) (journals pass.new) repo it.0 it.1) }
        ensures fault { IfErr result (λ f. Fails (limits self.now) (seats pass.old) (journals pass.old) (journals pass.new) repo f) };
}
