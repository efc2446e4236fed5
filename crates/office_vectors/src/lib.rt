//! Tests of an office through its public calls, against records and refusals that are written out here and not made by the
//! code under test. Most are tables of calls: what an office is told, and what has to come of it.
#![tactic(auto)]

#[cfg(test)]
mod buffers;
#[cfg(test)]
mod calls;
#[cfg(test)]
mod claims;
#[cfg(test)]
mod figures;
#[cfg(test)]
mod filing;
#[cfg(test)]
mod lines;
#[cfg(test)]
mod readings;
#[cfg(test)]
mod refusals;
#[cfg(test)]
mod seat;
#[cfg(test)]
mod tickets;
#[cfg(test)]
mod verdicts;
