// A test of a store by worked schedules: each event and each reply to it, at replicas of both bodies. The folder `cases`
// has more, which are run over the one body that `run` has.
// It has no contract of its own, and no crate depends on it.
#![tactic(auto)]

#[cfg(test)]
mod levels;
#[cfg(test)]
mod replies;
#[cfg(test)]
mod worked;
