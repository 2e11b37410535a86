//! The commands.

use adr_values::{Guid, Text};

/// A command over the disk of a name. A name is a letter, and then at most 31 letters, digits or `_`.
#[derive(Drop)]
pub enum DiskCommand {
    /// Makes an empty controller.
    Create { name: Text },
    /// Makes a controller of the image that is read.
    Install { name: Text },
    /// Makes a controller of the image that is read, under the identifier that is given.
    Restore { name: Text, dsa: Guid },
    /// Writes the controller's image.
    Backup { name: Text },
    /// Writes the controller's directory as a schedule's answer.
    Show { name: Text },
    /// Writes the controller's directory as JSON.
    Export { name: Text },
}

/// What the words of a command line ask for. Ports are those of TCP, 1 to 65,535.
#[derive(Drop)]
pub enum Command {
    /// Runs the schedule that is read.
    Replay,
    /// Runs the schedule of a number, 1 to 1,000.
    Exercise { number: u32 },
    /// Does a command over a disk.
    OnDisk(DiskCommand),
    /// Serves so many connections, 1 to 1,000, one after the other.
    Serve { name: Text, port: u16, count: u32 },
    /// Takes what the controller at the port has and this one lacks.
    Pull { name: Text, port: u16 },
    /// Sends the lines that are read to the controller at the port.
    Send { port: u16 },
}
