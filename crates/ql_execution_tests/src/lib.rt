// Tests of values, executions, evaluation and files of executions, with answers from outside: texts of values, what an
// execution refuses, values of expressions whose names aren't declared, folds of effects that no run sees, files by what
// they contain, and a transaction without effects. It has no contract of its own, and no crate depends on it.
#![tactic(auto)]

#[cfg(test)]
mod executions;
#[cfg(test)]
mod expressions;
#[cfg(test)]
mod files;
#[cfg(test)]
mod folds;
#[cfg(test)]
mod formulas;
#[cfg(test)]
mod values;
