#![tactic(auto)]

// Tests against values that were not made by the code under test: records written out byte by byte, records
// sealed by another implementation, every answer of both objects, and the limits at, below and above. What no
// program calls is called here too.
#[cfg(test)]
mod messages;
#[cfg(test)]
mod objects;
#[cfg(test)]
mod programs;
#[cfg(test)]
mod ranges;
#[cfg(test)]
mod records;
#[cfg(test)]
mod seals;
