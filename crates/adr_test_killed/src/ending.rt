//! Why the program ends before its work is done.

ghost use Rattle.std.specs.Prelude.{◌≡◌, ◌≤◌, ◌<◌};
ghost use Rattle.adr_test_killed.specs.declared.ending.Ending.TheVariants.{NoMemory as no_memory};
ghost use Rattle.adr_test_killed.specs.Ended.{of_call, of_fault, of_keeper, of_start};

use crate::keeping::tell;
use adr_controller::{CallRefusal, Hindrance, KeeperRefusal, StartRefusal, WriteRefusal};
use adr_io::Fault;
use std::alloc::AllocError;

/// Why it ends early.
#[derive(Clone, Copy)]
pub enum Ending {
    /// The words say nothing that is done here.
    Words,
    /// The file has bytes already.
    Taken,
    /// The bytes are no log; the place of the first fault.
    Damaged { place: u64 },
    /// The controller refused an object.
    Refused,
    /// The log has no room for more.
    Full,
    /// A call of the file failed.
    DiskFault,
    /// A line could not be written.
    Output,
    NoMemory,
}

impl Ending {
    /// The status of a program that ends so.
    pub fn status(&self) -> u8
        ensures { (1 ≤ result) × (result ≤ 8) }
    {
        match self {
            Ending::Words => 1,
            Ending::Taken => 2,
            Ending::Damaged { .. } => 3,
            Ending::Refused => 4,
            Ending::Full => 5,
            Ending::DiskFault => 6,
            Ending::Output => 7,
            Ending::NoMemory => 8,
        }
    }

    /// Tells it, in a line.
    pub fn tell(&self, rt: &HostRuntime) -> Result<(), Ending> {
        match self {
            Ending::Words => tell(rt, "words\n"),
            Ending::Taken => tell(rt, "taken\n"),
            Ending::Damaged { place } => tell(
                rt,
                format!(in rt.alloc(); "damaged {place}\n")?.as_str(),
            ),
            Ending::Refused => tell(rt, "refused\n"),
            Ending::Full => tell(rt, "full\n"),
            Ending::DiskFault => tell(rt, "disk\n"),
            Ending::Output => Ok(()),
            Ending::NoMemory => tell(rt, "memory\n"),
        }
    }
}

impl From<AllocError> for Ending {
    ghost from_gives = { λ _ e. e ≡ no_memory };

    fn from(_e: AllocError) -> Ending {
        Ending::NoMemory
    }
}

impl From<Fault> for Ending {
    ghost from_gives = { λ fault e. e ≡ of_fault fault };

    fn from(fault: Fault) -> Ending {
        match fault {
            Fault::Failed => Ending::DiskFault,
            Fault::NoMemory => Ending::NoMemory,
        }
    }
}

impl From<StartRefusal> for Ending {
    ghost from_gives = { λ refusal e. e ≡ of_start refusal };

    fn from(refusal: StartRefusal) -> Ending {
        match refusal {
            StartRefusal::DiskFault => Ending::DiskFault,
            StartRefusal::Damaged { place } => Ending::Damaged { place },
            StartRefusal::NoMemory { .. } => Ending::NoMemory,
        }
    }
}

impl From<KeeperRefusal> for Ending {
    ghost from_gives = { λ refusal e. e ≡ of_keeper refusal };

    fn from(refusal: KeeperRefusal) -> Ending {
        match refusal {
            KeeperRefusal::DiskFault | KeeperRefusal::Failed => Ending::DiskFault,
            KeeperRefusal::Full => Ending::Full,
            KeeperRefusal::NoMemory => Ending::NoMemory,
        }
    }
}

impl From<CallRefusal<WriteRefusal>> for Ending {
    ghost from_gives = { λ refusal e. e ≡ of_call refusal };

    fn from(refusal: CallRefusal<WriteRefusal>) -> Ending {
        match refusal {
            CallRefusal::Refused(_) => Ending::Refused,
            CallRefusal::Hindered(Hindrance::Full) => Ending::Full,
            CallRefusal::Hindered(Hindrance::NoMemory) => Ending::NoMemory,
            CallRefusal::Hindered(_) => Ending::DiskFault,
        }
    }
}
