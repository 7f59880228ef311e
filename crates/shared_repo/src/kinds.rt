//! Each kind of call, by what the state of a repository answers to it.
ghost use Rattle.std.specs.Prelude.{◌≡◌, ◌+◌, ◌<◌, Some};
ghost use Rattle.query_model.specs.Solutions.{lookups_of};
ghost use Rattle.journal.specs.declared.ask.Ask.TheVariants as asks;
ghost use Rattle.journal.specs.declared.level.Level.TheVariants as levels;
ghost use Rattle.journal.specs.declared.op.Op.TheVariants as op;
ghost use Rattle.journal.specs.declared.reply.Reply.TheVariants as replies;
ghost use Rattle.journal.specs.declared.fault.StoreFault.TheVariants as faults;
ghost use Rattle.journal.specs.Alone.{ReadsAsIfAlone};
ghost use Rattle.journal.specs.Journal.{entry_of};
ghost use Rattle.repo_store.specs.Stores.{IsNextStep, IsPinnedAt, answered};
ghost use Rattle.shared_repo.specs.States.{IsReplyAt};

use crate::calls::Call;
use change_set::Changes;
use iso_txn::{Pinned, RepoState};
use journal::{
    Ask, JournalFull, Level, NamesOp, Noted, Reply, StoreFault, Txn, done_commit_reads_as_if_alone,
    each_entry_is_judged_once, reply_at_the_end,
};
use query_model::Query;
use repo_store::pinned_is_answered;

#[derive(Drop)]
pub(crate) struct Begin {
    pub level: Level,
}

#[derive(Drop)]
pub(crate) struct Pin<'a> {
    pub txn: Option<Txn>,
    pub ask: &'a Ask,
}

#[derive(Drop)]
pub(crate) struct Step<'a> {
    pub txn: Txn,
    pub query: &'a Query,
    pub number: u32,
}

#[derive(Drop)]
pub(crate) struct Write<'a> {
    pub txn: Option<Txn>,
    pub changes: &'a Changes,
}

#[derive(Drop)]
pub(crate) struct Commit {
    pub txn: Txn,
}

#[derive(Drop)]
pub(crate) struct Rollback {
    pub txn: Txn,
}

#[derive(Drop)]
pub(crate) struct Ping {
    pub txn: Txn,
}

#[derive(Drop)]
pub(crate) struct Names<'a> {
    pub names: &'a NamesOp,
}

impl Call for Begin {
    type Target = ();

    type Answer = Reply;

    type Fault = StoreFault;

    ghost does = { λ call. op.Begin call.level };

    ghost needs = { λ call target seat repo. Unit {0} };

    ghost answers = { λ call older newer seat repo place reply. IsReplyAt repo place reply };

    ghost is_full = { λ fault. fault ≡ faults.JournalFull };

    fn entry(&self, seat: u32) -> Noted {
        Noted::begin(seat, self.level)
    }

    fn run(&self, state: &mut RepoState, seat: u32, _: &mut ()) -> Result<Reply, StoreFault> {
        reply_at_the_end();
        state.begin(seat, self.level)
    }
}

impl Call for Write<'_> {
    type Target = ();

    type Answer = Reply;

    type Fault = StoreFault;

    ghost does = { λ call. op.Write call.txn call.changes.now };

    ghost needs = { λ call target seat repo. Unit {0} };

    ghost answers = { λ call older newer seat repo place reply. IsReplyAt repo place reply };

    ghost is_full = { λ fault. fault ≡ faults.JournalFull };

    fn entry(&self, seat: u32) -> Noted {
        Noted::write(seat, self.txn, self.changes)
    }

    fn run(&self, state: &mut RepoState, seat: u32, _: &mut ()) -> Result<Reply, StoreFault> {
        reply_at_the_end();
        state.write(seat, self.txn, self.changes)
    }
}

impl Call for Pin<'_> {
    type Target = ();

    type Answer = Pinned;

    type Fault = StoreFault;

    ghost does = { λ call. op.Read call.txn call.ask.now };

    ghost needs = { λ call target seat repo. Unit {0} };

    ghost answers = { λ call older newer seat repo place pinned. IsPinnedAt repo place (entry_of seat (op.Read call.txn call.ask.now)) pinned × IsReplyAt repo place (answered pinned call.ask.now) };

    ghost is_full = { λ fault. fault ≡ faults.JournalFull };

    fn entry(&self, seat: u32) -> Noted {
        Noted::read(seat, self.txn, self.ask)
    }

    fn run(&self, state: &mut RepoState, seat: u32, _: &mut ()) -> Result<Pinned, StoreFault> {
        pinned_is_answered();
        let pinned = state.pin_read(seat, self.txn, self.ask)?;
        Ok(pinned)
    }
}

impl Call for Step<'_> {
    type Target = Pinned;

    type Answer = ();

    type Fault = StoreFault;

    ghost does = { λ call. op.Step call.txn call.query.now call.number };

    ghost needs = { λ call pinned seat repo. IsNextStep repo seat call.txn call.query.now call.number pinned };

    ghost answers = { λ call older newer seat repo place it. IsPinnedAt repo place (entry_of seat (op.Step call.txn call.query.now call.number)) newer
        × (call.number + 1 ≡ lookups_of call.query.now → IsReplyAt repo place (answered newer (asks.Query call.query.now)))
        × (call.number + 1 < lookups_of call.query.now → IsNextStep repo seat call.txn call.query.now (call.number + 1) newer) };

    ghost is_full = { λ fault. fault ≡ faults.JournalFull };

    fn entry(&self, seat: u32) -> Noted {
        Noted::step(seat, self.txn, self.query, self.number)
    }

    fn run(&self, state: &mut RepoState, seat: u32, pinned: &mut Pinned) -> Result<(), StoreFault> {
        pinned_is_answered();
        each_entry_is_judged_once();
        state.step(seat, self.txn, self.query, self.number, pinned)?;
        Ok(())
    }
}

impl Call for Commit {
    type Target = ();

    type Answer = Reply;

    type Fault = StoreFault;

    ghost does = { λ call. op.Commit call.txn };

    ghost needs = { λ call target seat repo. Unit {0} };

    ghost answers = { λ call older newer seat repo place reply. IsReplyAt repo place reply × (call.txn.level ≡ levels.Serializable → reply ≡ replies.Done → ReadsAsIfAlone repo.limits repo.journal call.txn place) };

    ghost is_full = { λ fault. fault ≡ faults.JournalFull };

    fn entry(&self, seat: u32) -> Noted {
        Noted::commit(seat, self.txn)
    }

    fn run(&self, state: &mut RepoState, seat: u32, _: &mut ()) -> Result<Reply, StoreFault> {
        reply_at_the_end();
        state.commit(seat, self.txn)
    }
}

impl Call for Rollback {
    type Target = ();

    type Answer = Reply;

    type Fault = JournalFull;

    ghost does = { λ call. op.Rollback call.txn };

    ghost needs = { λ call target seat repo. Unit {0} };

    ghost answers = { λ call older newer seat repo place reply. IsReplyAt repo place reply };

    ghost is_full = { λ fault. Unit {0} };

    fn entry(&self, seat: u32) -> Noted {
        Noted::rollback(seat, self.txn)
    }

    fn run(&self, state: &mut RepoState, seat: u32, _: &mut ()) -> Result<Reply, JournalFull> {
        reply_at_the_end();
        state.rollback(seat, self.txn)
    }
}

impl Call for Ping {
    type Target = ();

    type Answer = Reply;

    type Fault = JournalFull;

    ghost does = { λ call. op.Ping call.txn };

    ghost needs = { λ call target seat repo. Unit {0} };

    ghost answers = { λ call older newer seat repo place reply. IsReplyAt repo place reply };

    ghost is_full = { λ fault. Unit {0} };

    fn entry(&self, seat: u32) -> Noted {
        Noted::ping(seat, self.txn)
    }

    fn run(&self, state: &mut RepoState, seat: u32, _: &mut ()) -> Result<Reply, JournalFull> {
        reply_at_the_end();
        state.ping(seat, self.txn)
    }
}

impl Call for Names<'_> {
    type Target = ();

    type Answer = Reply;

    type Fault = StoreFault;

    ghost does = { λ call. op.Names call.names.now };

    ghost needs = { λ call target seat repo. Unit {0} };

    ghost answers = { λ call older newer seat repo place reply. IsReplyAt repo place reply };

    ghost is_full = { λ fault. fault ≡ faults.JournalFull };

    fn entry(&self, seat: u32) -> Noted {
        Noted::names(seat, self.names)
    }

    fn run(&self, state: &mut RepoState, seat: u32, _: &mut ()) -> Result<Reply, StoreFault> {
        reply_at_the_end();
        state.names(seat, self.names)
    }
}
