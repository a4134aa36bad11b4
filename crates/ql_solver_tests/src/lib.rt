// Tests of levels, clause lists, and the solver with its refutations, with answers from outside.
// No crate depends on this one.
#![tactic(auto)]

#[cfg(test)]
mod clauses;
#[cfg(test)]
mod levels;
#[cfg(test)]
mod relative;
#[cfg(test)]
mod solver;
#[cfg(test)]
mod texts;
