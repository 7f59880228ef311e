//! Queries that have as many solutions as rows may be, one less, and one more.
ghost use Rattle.std.specs.Prelude.{◌≡◌, ◌≤◌};

use crate::acts::Act;
use crate::asks::{ALL, LOOP, PAIRS, SIZE, SUBJECTS, TRIPLES, TWO_STEPS};
use crate::local::{agrees, entered, repository};
use crate::numbers::limits;
use crate::plain::Plain;
use crate::quads::Edit;
use crate::replies::Answer;
use journal::{Limits, StoreFault};
use repo_store::LocalRepo;
use std::alloc::Global;

/// Four pairs of terms by the predicate `<urn:p>`, and a solution of the query with two patterns.
const FOUR: &[Edit] = &[
    Edit::Add(0),
    Edit::Add(1),
    Edit::Add(4),
    Edit::Add(5),
    Edit::Add(6),
];

/// Those pairs without one.
const THREE: &[Edit] = &[Edit::Add(0), Edit::Add(1), Edit::Add(4), Edit::Add(5)];

/// One of them.
const ONE: &[Edit] = &[Edit::Add(4), Edit::Add(5)];

/// None of them.
const NONE: &[Edit] = &[Edit::Add(5)];

/// A content, the most rows, and whether the query for the pairs has more solutions.
#[derive(Clone, Copy)]
struct Case {
    edits: &'static [Edit],
    rows: u64,
    too_many: bool,
}

static CASES: [Case; 9] = [
    Case {
        edits: FOUR,
        rows: 5,
        too_many: false,
    },
    Case {
        edits: FOUR,
        rows: 4,
        too_many: false,
    },
    Case {
        edits: FOUR,
        rows: 3,
        too_many: true,
    },
    Case {
        edits: FOUR,
        rows: 1,
        too_many: true,
    },
    Case {
        edits: THREE,
        rows: 3,
        too_many: false,
    },
    Case {
        edits: THREE,
        rows: 2,
        too_many: true,
    },
    Case {
        edits: ONE,
        rows: 1,
        too_many: false,
    },
    Case {
        edits: ONE,
        rows: 2,
        too_many: false,
    },
    Case {
        edits: NONE,
        rows: 1,
        too_many: false,
    },
];

/// The queries that want rows or triples for each pair: the last one counts its solutions before it drops
/// equal rows.
const OF_PAIRS: [usize; 3] = [PAIRS, TRIPLES, SUBJECTS];

/// Other asks, which no case refuses.
const OTHERS: [usize; 4] = [TWO_STEPS, LOOP, SIZE, ALL];

fn is_refused(alloc: Global, repo: &mut LocalRepo, ask: usize) -> Result<bool, StoreFault> {
    let (_, answer) = entered(alloc, repo, Act::Read(None, ask))?;
    Ok(answer == Answer::TooManyRows)
}

fn are_refused(alloc: Global, repo: &mut LocalRepo, too_many: bool) -> Result<bool, StoreFault> {
    for ask in OF_PAIRS {
        if is_refused(alloc, repo, ask)? != too_many {
            return Ok(false);
        }
    }
    for ask in OTHERS {
        if is_refused(alloc, repo, ask)? {
            return Ok(false);
        }
    }
    Ok(true)
}

/// Limits with so many rows, at least one.
fn limits_of(rows: u64) -> Limits
    requires least { 1 ≤ rows }
    requires most { rows ≤ 10 }
    ensures { result ≡ record { quads = 6; bytes = 180; rows = rows; txns = 4; names = 1; places = 1000000 } }
{
    Limits { rows, ..limits() }
}

/// Whether a repository without entries with these limits answers the case right.
fn is_as_told(
    alloc: Global,
    repo: &mut LocalRepo,
    limits: Limits,
    case: Case,
) -> Result<bool, StoreFault> {
    let mut plain = Plain::new(alloc, limits);
    let right = agrees(alloc, repo, &mut plain, Act::Write(None, case.edits))?
        && agrees(alloc, repo, &mut plain, Act::Read(None, PAIRS))?;
    if !right {
        return Ok(false);
    }
    are_refused(alloc, repo, case.too_many)
}

fn is_right(alloc: Global, case: Case) -> Result<bool, StoreFault> {
    if case.rows == 0 || case.rows > 10 {
        return Ok(false);
    }
    let limits = limits_of(case.rows);
    let mut repo = repository(alloc, limits)?;
    is_as_told(alloc, &mut repo, limits, case)
}

#[test]
fn queries_with_more_solutions_than_rows_are_refused(rt: HostRuntime) -> Result<(), StoreFault> {
    for (number, case) in CASES.iter().enumerate() {
        assert!(rt; is_right(rt.alloc(), *case)?, "case {number}");
    }
    Ok(())
}
