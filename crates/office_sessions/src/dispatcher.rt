//! The thread that holds every feed.
ghost use Rattle.office_sessions.specs.Session.{AllStayAt};

use crate::replies::OfficeLife;
use crate::scheduler::Scheduler;
use crate::session::Session;
use crate::status::Clients;
use std::snapshot::Snapshot;
use std::sync::Wait;
use std::thread::Promise;

/// That each session's feed is the one that it was, and that it looks at the same postings.
#[derive(Drop)]
pub(crate) struct SameSessions<L: OfficeLife>(pub Snapshot<Vec<Session<L>>>);

impl<L: OfficeLife> Promise<Vec<Session<L>>> for SameSessions<L> {
    ghost use Rattle.office_sessions.specs.Session.{AllStayAt};

    ghost kept_by = { λ promise sessions. AllStayAt promise.0.value.items sessions.items };
}

/// Attends to the counters until the office's life is over.
pub(crate) fn dispatch<L: OfficeLife, R: Wait, C: Clients + Drop>(
    rt: &R,
    scheduler: &Scheduler<L>,
    sessions: Vec<Session<L>>,
    clients: C,
) -> Vec<Session<L>>
    ensures { AllStayAt sessions.items result.items }
{
    let (mut sessions, mut clients) = (sessions, clients);
    for _ in rt.forever() {
        // looked at first: what came before it is over is attended to below
        let is_over = scheduler.is_over();
        attend_all(rt, scheduler, sessions.as_mut_slice(), &mut clients);
        if is_over {
            return sessions;
        }
        scheduler.wait_for_work(rt);
    }
    unreachable!()
}

// Attends to each counter once.
fn attend_all<L: OfficeLife, R: Wait, C: Clients>(
    rt: &R,
    scheduler: &Scheduler<L>,
    sessions: &mut [Session<L>],
    clients: &mut C,
)
    ensures { AllStayAt sessions.old sessions.new }
{
    for session in sessions.iter_mut() {
        session.attend(rt, scheduler, clients);
    }
}
