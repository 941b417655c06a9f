//! The outside of a program: disks, which hold files by name, and outlets, which take bytes by
//! pieces. Each is a trait, with forms over memory for tests and thin adapters over the host.
#![tactic(auto)]

mod counter;
mod disk;
mod firm_disk;
mod host_disk;
mod host_outlet;
mod mem_disk;
mod mem_outlet;
mod null_outlet;
mod outlet;
mod put;

pub use disk::{Disk, DiskRead, Failed};
pub use firm_disk::FirmDisk;
pub use host_disk::HostDisk;
pub use host_outlet::StdOutlet;
pub use mem_disk::MemDisk;
pub use mem_outlet::MemOutlet;
pub use null_outlet::NullOutlet;
pub use outlet::Outlet;
pub use put::put_all;
pub use sch_word::Answer;
