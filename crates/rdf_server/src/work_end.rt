//! How the program `workload` ends, and whether its workers finished.
ghost use Rattle.std.specs.Prelude.{◌≡◌, ◌↔◌, All, IsTrue};
ghost use Rattle.session.specs.declared.report.Outcome.TheVariants.{Answered};
ghost use Rattle.session.specs.declared.report.SessionReport.{SessionReport};
ghost use Rattle.session.specs.declared.report.Turn.{Turn};
ghost use Rattle.worker_pool.specs.declared.door_end.DoorEnd.{DoorEnd};
ghost use Rattle.rdf_server.specs.Workloads.{HasFinished, IsDone};

use session::{Outcome, SessionEnd, SessionReport, Turn};
use worker_pool::{DoorEnd, HouseEnd};

/// How the program `workload` ended: its status, and the end of the house that was served, where the
/// status is 0 or 3.
#[derive(Drop)]
pub struct WorkEnd {
    pub status: u8,
    pub house: Option<HouseEnd>,
}

fn are_answered(turns: &[Turn]) -> bool
    ensures { IsTrue result ↔ All (λ (t : Turn). t.outcome ≡ Answered) turns.now }
{
    turns.iter().all(|turn| turn.outcome == Outcome::Answered)
}

/// Whether a session ended between two requests, and each of these was answered.
fn is_done(report: &SessionReport) -> bool
    ensures { IsTrue result ↔ IsDone report.now }
{
    report.end == SessionEnd::Done && are_answered(report.turns.as_slice())
}

/// Whether a worker served one connection, to the end of its requests, and answered each of these.
fn has_finished(end: &DoorEnd) -> bool
    ensures { IsTrue result ↔ ((report : SessionReport) × HasFinished end.now report) }
{
    let Some((report, others)) = end.reports.as_slice().split_first() else {
        return false;
    };
    if !others.is_empty() {
        return false;
    }
    is_done(report)
}

/// Whether all workers finished, of whom there are few.
pub(crate) fn have_finished(ends: &[DoorEnd]) -> bool
    ensures { IsTrue result ↔ All (λ (end : DoorEnd). (report : SessionReport) × HasFinished end report) ends.now }
{
    let Some((end, others)) = ends.split_first() else {
        return true;
    };
    has_finished(end) && have_finished(others)
}
