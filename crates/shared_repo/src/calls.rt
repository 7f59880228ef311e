//! The calls that make an entry.
ghost use Rattle.std.specs.Prelude.{◌≡◌, ◌↔◌, ◌<◌, length, IfOk, IfErr, OnOk, OnErr};
ghost use Rattle.journal.specs.declared.op.Op.{Op};
ghost use Rattle.journal.specs.Journal.{entry_of};
ghost use Rattle.iso_txn.specs.Repository.{IsFull, Repository, with_entry};
ghost use Rattle.shared_repo.specs.States.{MayFollow};

use iso_txn::RepoState;
use journal::Noted;

/// A call of a repository. It makes one entry, or none, and then all stays as it was.
pub(crate) trait Call {
    ghost use Rattle.std.specs.Prelude.{ℕ};

    /// What it changes beside the repository.
    type Target;

    type Answer;

    type Fault;

    /// What its entry does.
    ghost does: { Self → Op };

    /// What it needs of its target and of the repository, under a seat number.
    ghost needs: { Self → Self.Target → ℕ → Repository → Type 0 };

    /// What it answers and makes of its target, under a seat number, where its entry stands at a place of
    /// a repository.
    ghost answers: { Self → Self.Target → Self.Target → ℕ → Repository → ℕ → Self.Answer → Type 0 };

    /// The fault says that the journal is full.
    ghost is_full: { Self.Fault → Type 0 };

    /// Its entry, which takes no memory.
    fn entry(&self, seat: u32) -> Noted
        ensures { result ≡ entry_of seat (does self.now) };

    fn run(
        &self,
        state: &mut RepoState,
        seat: u32,
        target: &mut Self::Target,
    ) -> Result<Self::Answer, Self::Fault>
        requires { needs self.now target.old seat state.old }
        ensures journal { OnOk result (state.new ≡ with_entry state.old (entry_of seat (does self.now))) }
        ensures room { OnOk result (length state.old.journal < state.old.limits.places) }
        ensures answer { IfOk result (λ it. answers self.now target.old target.new seat state.new (length state.old.journal) it) }
        ensures fault { OnErr result (state.new ≡ state.old) }
        ensures full { IfErr result (λ fault. is_full fault ↔ IsFull state.old) }
        ensures target { OnErr result (target.new ≡ target.old) }
        ensures legal { MayFollow state.old.journal (entry_of seat (does self.now)) };
}
