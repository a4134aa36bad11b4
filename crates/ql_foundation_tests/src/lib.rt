// Tests of the lowest crates: sets of ids, names, shelves and sinks, lines, excerpts and atoms, with answers from outside.
// It has no contract of its own, and no crate depends on it.
#![tactic(auto)]

#[cfg(test)]
mod atoms;
#[cfg(test)]
mod excerpts;
#[cfg(test)]
mod ids;
#[cfg(test)]
mod lines;
#[cfg(test)]
mod ports;
