//! The disks of scripts: memory that stops, fails and counts its calls as a script says, and sectors of one as a script says them.
#![tactic(auto)]

mod device;
mod last_commit;
mod sectors;

pub use device::{Device, Orders};
pub use last_commit::with_last_commit;
pub use sectors::{is_sector, put_in_sector, read_sector};
