// Tests of the store's parts, with answers from outside: messages, notes of sessions, open transactions and the synchronous
// step; the holders, worked cases for both bodies and the same random receipts by both; and the journal, what is recovered
// from bytes and after a failure at each call of the disk. It has no contract of its own, and no crate depends on it.
#![tactic(auto)]

#[cfg(test)]
mod executions;
#[cfg(test)]
mod files;
#[cfg(test)]
mod messages;
#[cfg(test)]
mod notes;
#[cfg(test)]
mod random;
#[cfg(test)]
mod receipts;
#[cfg(test)]
mod stops;
#[cfg(test)]
mod transactions;
#[cfg(test)]
mod two_effects;
