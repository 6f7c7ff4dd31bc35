//! What became of each request of a day.
ghost use Rattle.std.specs.Prelude.{IfOk};
ghost use Rattle.std.specs.List.{AllZip};
ghost use Rattle.station_desk.specs.Rings.{AreTogether};
ghost use Rattle.office_day.specs.Day.{IsReconciled, AreReconciled};

use crate::seated::StationRemains;
use station_desk::{Answer, Ask, End, Feed, reconcile};
use std::alloc::{AllocError, Global};

/// What became of a station's requests in a day.
#[derive(Debug, Drop)]
pub struct StationDay {
    /// How the station ended.
    pub end: End,
    /// The answers to the first of its requests, in order.
    pub answers: Vec<Answer>,
    /// The requests behind them, which have no answer.
    pub unanswered: Vec<Ask>,
}

// What became of the requests of a feed, with the desk that its station left.
fn reconciled(alloc: Global, feed: Feed, left: StationRemains) -> Result<StationDay, AllocError>
    requires { AreTogether feed left.desk }
    ensures { IfOk result (λ day. IsReconciled feed left day) }
{
    let StationRemains { desk, end } = left;
    match reconcile(alloc, feed, desk) {
        Ok(all) => Ok(StationDay {
            end,
            answers: all.answers,
            unanswered: all.unanswered,
        }),
        Err((_, _, refused)) => Err(refused),
    }
}

/// What became of the requests of each feed, with what the station at the same place left: of those
/// whose answers were not collected.
///
/// # Errors
/// Out of memory.
pub fn all_reconciled(
    alloc: Global,
    feeds: Vec<Feed>,
    left: Vec<StationRemains>,
) -> Result<Vec<StationDay>, AllocError>
    requires { AllZip (λ feed part. AreTogether feed part.desk) feeds.items left.items }
    ensures { IfOk result (λ days. AreReconciled feeds.items left.items days.items) }
{
    let mut days = Vec::with_capacity(alloc, feeds.len())?;
    for (feed, part) in feeds.into_iter().zip(left) {
        days.push(reconciled(alloc, feed, part)?)?;
    }
    Ok(days)
}
