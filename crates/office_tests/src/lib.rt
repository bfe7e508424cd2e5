//! Tests of the crates from the equipment up to the one-marker office, and of drawings. The
//! expected values come from outside the program.
#![tactic(auto)]

#[cfg(test)]
mod equip;
#[cfg(test)]
mod fixtures;
#[cfg(test)]
mod matching;
#[cfg(test)]
mod office;
#[cfg(test)]
mod pictures;
#[cfg(test)]
mod plan;
#[cfg(test)]
mod shapes;
#[cfg(test)]
mod switch;
