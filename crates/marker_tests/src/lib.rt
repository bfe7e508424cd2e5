//! Tests of markers: of one marker's job as steps; of two markers in one office, as plain data and
//! as desks on shared words; of many markers in one office, on threads too; and of how their steps
//! are described.
#![tactic(auto)]

#[cfg(test)]
mod calls;
#[cfg(test)]
mod exchange;
#[cfg(test)]
mod fixtures;
#[cfg(test)]
mod jobs;
#[cfg(test)]
mod offices;
#[cfg(test)]
mod threads;
#[cfg(test)]
mod told;
