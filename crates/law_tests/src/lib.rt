//! Tests of `turns`, `slots`, `slot_desks`, `bank_desks` and `fair_queue`: by values from outside,
//! and on threads.
#![tactic(auto)]

#[cfg(test)]
mod bank_at_work;
#[cfg(test)]
mod banks;
#[cfg(test)]
mod locks;
#[cfg(test)]
mod operations;
#[cfg(test)]
mod queues;
#[cfg(test)]
mod slots_at_work;
#[cfg(test)]
mod tries;
