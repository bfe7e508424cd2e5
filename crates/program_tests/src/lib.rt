//! Tests of what rows of `worked_rows` and `command_rows` can't have: devices that fail or never
//! end, refused memory, large texts, bytes that aren't text, real files, and calls that compete.
#![tactic(auto)]

#[cfg(test)]
mod counted;
#[cfg(test)]
mod diagnostics;
#[cfg(test)]
mod program;
#[cfg(test)]
mod report;
#[cfg(test)]
mod traffic;
