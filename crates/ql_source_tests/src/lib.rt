// Tests of the tokens of texts, of printed trees, of how the operations of contracts are numbered, and of schedules, each
// printed as it was read. The results are from outside, and no crate depends on this one.
#![tactic(auto)]

#[cfg(test)]
mod contract_trees;
#[cfg(test)]
mod contracts;
#[cfg(test)]
mod program_trees;
#[cfg(test)]
mod schedules;
#[cfg(test)]
mod texts;
#[cfg(test)]
mod tokens;
