//! Whether the words that ask for an office go together, and what is worked out of them.
ghost use Rattle.std.specs.Prelude.{◌≡◌, ◌≢◌, ◌≤◌, ◌<◌, ◌+◌, ◌↔◌, length, None, option_map};
ghost use Rattle.std.specs.Prelude.{unwrap_or, IsTrue, IfOk, IfErr, IfSome, Err};
ghost use Rattle.front_program.specs.ServeOptions.{counters_of, fewest_of, stations_of};

use crate::wrong_words::WrongWords;
use four_state::{FEWEST_STATIONS, MOST_STATIONS};
use ledger_file::FormatOptions;
use office_service::{OfficePlan, ServeOptions};

/// What is worked out of what is asked of an office, if the words go together.
///
/// # Errors
/// [`WrongWords`], the first that holds.
pub fn plan_office(serving: &ServeOptions<'_>) -> Result<OfficePlan, WrongWords>
    ensures some { IfOk result (λ plan. 2 ≤ plan.stations) }
    ensures enough { IfOk result (λ plan. counters_of serving.now ≤ plan.stations) }
    ensures stations { IfOk result (λ plan. plan.stations ≡ stations_of serving.now) }
    ensures slots { IfOk result (λ plan.
        option_map (λ f. f.slots) plan.formatting ≡ serving.now.format) }
    ensures sectors { IfOk result (λ plan.
        IfSome plan.formatting (λ f. f.sectors ≡ unwrap_or serving.now.sectors 0)) }
    ensures overwrite { IfOk result (λ plan.
        IfSome plan.formatting (λ f. f.overwrite ≡ serving.now.overwrite)) }
    ensures nobody { (result ≡ Err WrongWords.NoCounter) ↔ (counters_of serving.now ≡ 0) }
    ensures too_many { (result ≡ Err WrongWords.TooManyCounters) ↔ (64 < counters_of serving.now) }
    ensures too_few { (result ≡ Err WrongWords.TooFewStations)
        ↔ ((1 ≤ counters_of serving.now) × (counters_of serving.now ≤ 64)
        × (stations_of serving.now < fewest_of serving.now)) }
{
    Ok(OfficePlan {
        stations: stations_wanted(serving)?,
        formatting: formatting(serving)?,
    })
}

// How many stations the office has: as many as are asked for, and else one for each counter, but
// two at least.
fn stations_wanted(serving: &ServeOptions<'_>) -> Result<u64, WrongWords>
    ensures some { IfOk result (λ stations. 2 ≤ stations) }
    ensures enough { IfOk result (λ stations. length serving.now.counters.items ≤ stations) }
    ensures terminal { IfOk result (λ stations. IsTrue serving.now.terminal
        → length serving.now.counters.items + 1 ≤ stations) }
    ensures as_asked { IfOk result (λ stations. stations ≡ stations_of serving.now) }
    ensures nobody { (result ≡ Err WrongWords.NoCounter) ↔ (counters_of serving.now ≡ 0) }
    ensures too_many { (result ≡ Err WrongWords.TooManyCounters) ↔ (64 < counters_of serving.now) }
    ensures too_few { (result ≡ Err WrongWords.TooFewStations)
        ↔ ((1 ≤ counters_of serving.now) × (counters_of serving.now ≤ 64)
        × (stations_of serving.now < fewest_of serving.now)) }
    ensures not_format { result ≢ Err WrongWords.NoFormat }
{
    let terminals = if serving.terminal { 1 } else { 0 };
    let folders = serving.counters.len() as u64;
    if folders == 0 && !serving.terminal {
        return Err(WrongWords::NoCounter);
    }
    if folders > MOST_STATIONS - terminals {
        return Err(WrongWords::TooManyCounters);
    }
    let fewest = (folders + terminals).max(FEWEST_STATIONS);
    match serving.stations {
        Some(stations) if stations < fewest => Err(WrongWords::TooFewStations),
        Some(stations) => Ok(stations),
        None => Ok(fewest),
    }
}

// How the ledger is to be made, if that is asked for.
fn formatting(serving: &ServeOptions<'_>) -> Result<Option<FormatOptions>, WrongWords>
    ensures slots { IfOk result (λ formatting.
        option_map (λ f. f.slots) formatting ≡ serving.now.format) }
    ensures sectors { IfOk result (λ formatting.
        IfSome formatting (λ f. f.sectors ≡ unwrap_or serving.now.sectors 0)) }
    ensures overwrite { IfOk result (λ formatting.
        IfSome formatting (λ f. f.overwrite ≡ serving.now.overwrite)) }
    ensures refused { (result ≡ Err WrongWords.NoFormat)
        ↔ ((serving.now.format ≡ None) × IsTrue serving.now.overwrite) }
    ensures only { IfErr result (λ wrong. wrong ≡ WrongWords.NoFormat) }
{
    let Some(slots) = serving.format else {
        return if serving.overwrite {
            Err(WrongWords::NoFormat)
        } else {
            Ok(None)
        };
    };
    Ok(Some(FormatOptions {
        slots,
        sectors: serving.sectors.unwrap_or(0),
        overwrite: serving.overwrite,
    }))
}
