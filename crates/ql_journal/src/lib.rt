// A station: a replica that journals what it receives on a disk, which may be stopped at any moment, and is recovered
// from it with what it had received before that receipt, or after it. Below it the disk: what a read returns, what it
// held at the last good sync, and which bytes were written since.
// The one contract: whatever a stop since the start of a receipt may leave on the disk has the records from before it,
// or these with the package; after `Ok` it has the package; and a station recovered from it has received exactly that.
#![tactic(auto)]

mod appending;
mod disk;
mod durable;
mod file_disk;
mod known;
mod mem_disk;
mod reading;
mod recovering;
mod station;
mod why;
mod writing;

pub use disk::Disk;
pub use durable::write_durably;
pub use file_disk::FileDisk;
pub use mem_disk::MemDisk;
pub use ql_ports::Failed;
pub use station::Station;
pub use why::StationWhy;
