//! Who tells a station what to do, and is told how far it is.
ghost use Rattle.std.specs.Prelude.{◌≡◌};

use crate::errand::{Errand, Question, Report};
use std::sync::Wait;
use turn_clerk::Turn;

/// Who stands beside each station, in its thread: it says what the station does next, and is told
/// how far the station is; no sector, as the gates of a journal are. Nothing is claimed of what it
/// does; a station goes on when a call returns.
pub trait Gate {
    ghost use Rattle.station_desk.specs.declared.errand.Errand.TheVariants.{Ask, Close};
    ghost use Rattle.station_desk.specs.declared.errand.Question.{Question};
    ghost use Rattle.station_desk.specs.declared.errand.Report.{Report};

    /// Whether it may send a station home before all turns are taken.
    ghost closes: { Self → Type 0 } = { λ _. Unit {0} };

    /// Which questions it has a station ask.
    ghost asks: { Self → Question → Type 0 } = { λ _ _. Unit {0} };

    /// What is so of each report that it is handed, with the question that it answers.
    ghost hears: { Self → Question → Report → Type 0 } = { λ _ _ _. Unit {0} };

    /// What the station does next. It may wait, until something is to be done. Without a body of
    /// its own a station asks for its turn.
    fn errand<R: Wait>(&self, _rt: &R, _station: u8) -> Errand
        ensures close { result ≡ Close → closes self.now }
        ensures asked { (question : Question) → result ≡ Ask question → asks self.now question }
    {
        Errand::Turn
    }

    /// What the office answered to this question, that of the station's last errand.
    fn reported<R: Wait>(&self, _rt: &R, _station: u8, question: Question, report: Report)
        requires right { hears self.now question report }
    {}

    /// The station has gathered, and asks for its turn next.
    fn gathered(&self, station: u8);

    /// The station has taken this turn, and answered all that it held.
    fn took(&self, _turn: &Turn) {}

    /// The station has answered all that it held.
    fn answered(&self, station: u8);

    /// The station has ended, and takes no turn any more.
    fn ended(&self, _station: u8) {}
}
