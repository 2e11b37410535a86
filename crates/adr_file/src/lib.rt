//! A disk over a file of a folder, the raw calls of the system that it makes, and what keeps that file apart from the
//! standard streams. It stands on the trait of `adr_disk`. Over a folder that tells what its calls do, the disk tells its
//! bytes and what a crash may leave of them; the system's own folder tells nothing.
#![tactic(auto)]

mod calls;
mod device;
mod disk;
mod folder;
mod held;
mod streams;
mod system;

pub use device::Folder;
pub use disk::FileDisk;
pub use folder::{Found, Identity, Measured};
pub use streams::hold_streams;
pub use system::SystemFolder;
