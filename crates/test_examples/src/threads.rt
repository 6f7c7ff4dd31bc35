//! What neither a console nor a single thread shows: stations whose threads take their steps in an
//! order that matters, as what is done beside a sync that is under way, or between two steps of a
//! station.
mod beside;
mod clients;
mod moments;
mod runs;
mod waiting;
