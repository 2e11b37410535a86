//! The places of the standard streams.

use std::fs::{File, Files};
use std::io;

/// Opens three files that can be neither read nor written, which take the places of standard streams that the caller closed.
///
/// Before anything else is opened: else the next file or socket would take such a place, and what is written to standard
/// output would go into it. While they are held, a closed stream fails when it is read or written.
pub fn hold_streams<R: Files<File = File>>(files: &R) -> io::Result<[File; 3]> {
    // A folder: reading it fails, and it isn't open for writing.
    Ok([
        File::open(files, "/")?,
        File::open(files, "/")?,
        File::open(files, "/")?,
    ])
}
