//! Laws of journals, each as the contract of a function that does nothing.
ghost use Rattle.journal.specs.Laws.{CommitsInTurn, CommittedInTurn, ConflictsInTurn, EachEntryIsJudgedOnce, LegalInTurn, OpenTransactionsInTurn, OwnChangesInTurn, PrefixesInTurn, ReplyAtTheEnd, ReplyReadsNoLaterEntry, TransactionIsAmongTheOpenOnes};
ghost use Rattle.journal.specs.SerialLaws.{CommittedReadsAsIfAlone, DoneCommitReadsAsIfAlone, SerialJournalAgrees};

/// An entry is judged by the entries before it, and no later one changes that.
pub fn each_entry_is_judged_once()
    ensures { EachEntryIsJudgedOnce }
{}

/// The reply at a place is fixed by the entries up to it.
pub fn reply_reads_no_later_entry()
    ensures { ReplyReadsNoLaterEntry }
{}

/// The reply to an entry that is added to a journal is the reply at its place from then on.
pub fn reply_at_the_end()
    ensures { ReplyAtTheEnd }
{}

/// One more entry applies its changes to the committed content, and does nothing else to it.
pub fn committed_in_turn()
    ensures { CommittedInTurn }
{}

/// One more entry ends the transactions that it commits or rolls back, and begins one where it is an
/// accepted Begin.
pub fn open_transactions_in_turn()
    ensures { OpenTransactionsInTurn }
{}

/// A transaction is open where it is among the open ones, and only there.
pub fn transaction_is_among_the_open_ones()
    ensures { TransactionIsAmongTheOpenOnes }
{}

/// A legal journal stays legal with one more entry that is legal behind it, and so is each journal
/// that it begins with.
pub fn legal_in_turn()
    ensures { LegalInTurn }
{}

/// One more entry adds to a transaction's own changes those that it writes by itself.
pub fn own_changes_in_turn()
    ensures { OwnChangesInTurn }
{}

/// One more accepted entry does to the prefixes what it says, and a refused one nothing.
pub fn prefixes_in_turn()
    ensures { PrefixesInTurn }
{}

/// One more entry adds the patterns of its Read to those that its transaction observed, and its delta
/// to those since each Begin before it.
pub fn conflicts_in_turn()
    ensures { ConflictsInTurn }
{}

/// One more entry is counted among the accepted Commits where it is one.
pub fn commits_in_turn()
    ensures { CommitsInTurn }
{}

/// A SERIALIZABLE transaction whose commit is done read as if it ran alone: each of its reads has the
/// reply that it would get if the transaction's calls stood together at the commit.
pub fn committed_reads_as_if_alone()
    ensures { CommittedReadsAsIfAlone }
{}

/// The same of a commit that is added to a journal with the reply that it is done.
pub fn done_commit_reads_as_if_alone()
    ensures { DoneCommitReadsAsIfAlone }
{}

/// Where all accepted Begins are SERIALIZABLE and each Step names a READ_COMMITTED transaction, the
/// serial journal agrees with the journal: each committed transaction is one block at its Commit, every
/// kept entry has the reply that it has in the journal, and the content in the end is the same.
pub fn serial_journal_agrees()
    ensures { SerialJournalAgrees }
{}
