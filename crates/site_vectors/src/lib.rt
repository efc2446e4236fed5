//! Tests of a site through its public call, against records and refusals that are written out here and not made by the
//! code under test. Most are tables of calls: what a site is told, and what it has to reply.
#![tactic(auto)]

#[cfg(test)]
mod buffers;
#[cfg(test)]
mod calls;
#[cfg(test)]
mod certificates;
#[cfg(test)]
mod claims;
#[cfg(test)]
mod examples;
#[cfg(test)]
mod frozen;
#[cfg(test)]
mod limits;
#[cfg(test)]
mod lines;
#[cfg(test)]
mod refusals;
#[cfg(test)]
mod rounds;
#[cfg(test)]
mod sealed;
#[cfg(test)]
mod take_backs;
#[cfg(test)]
mod unchanged;
