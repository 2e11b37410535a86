//! A folder in memory that tells what its calls do: it shows that the trait of folders can be met by one that tells. A
//! disk over its file is tried on it, with a crash behind each call, calls that fail, and a file that another hand moves.
#![tactic(auto)]

mod folder;
mod kept;
#[cfg(test)]
mod tries;

pub use folder::MemFolder;
