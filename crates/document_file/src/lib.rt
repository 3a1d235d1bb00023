//! Documents in a file that sqlite3 reads.
#![tactic(auto)]

mod checkpoints;
mod crashing;
mod entries;
mod files;
mod making;
mod open_faults;
mod opening;
mod tables;
mod versions;

pub use checkpoints::Checkpoint;
pub use crashing::put_and_crash;
pub use files::DocumentFile;
pub use open_faults::OpenFault;
pub use opening::open;
