// Tests of the program's commands over files in memory, of which a fetch or a put may fail, and of the calls that the
// claims are about. The other answers of commands are in the folder `cases`. It has no contract of its own.
#![tactic(auto)]

#[cfg(test)]
mod asking;
#[cfg(test)]
mod calls;
#[cfg(test)]
mod commands;
#[cfg(test)]
mod failing;
