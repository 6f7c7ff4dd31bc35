//! An example of each library that a test can show. A user's program goes on where one of them ends
//! by [`scenes::needed`]; `example` is written as such a program. Beside them stands what a console
//! can't show: a device of 8,000,000 sectors, the texts of refusals, and threads whose order
//! matters. Each test holds whatever thread runs when.
#![tactic(auto)]

#[cfg(test)]
mod clerks;
#[cfg(test)]
mod counters;
#[cfg(test)]
mod damages;
#[cfg(test)]
mod days;
#[cfg(test)]
mod devices;
#[cfg(test)]
mod example;
#[cfg(test)]
mod faults;
#[cfg(test)]
mod files;
#[cfg(test)]
mod flags;
#[cfg(test)]
mod folders;
#[cfg(test)]
mod grammar;
#[cfg(test)]
mod journals;
#[cfg(test)]
mod ledgers;
#[cfg(test)]
mod limits;
#[cfg(test)]
mod lines;
#[cfg(test)]
mod listings;
#[cfg(test)]
mod offices;
#[cfg(test)]
mod recovery;
#[cfg(test)]
mod refusals;
#[cfg(test)]
mod scenes;
#[cfg(test)]
mod scripts;
#[cfg(test)]
mod streams;
#[cfg(test)]
mod sweeps;
#[cfg(test)]
mod threads;
