//! A connection is opened.

ghost use Rattle.std.specs.Prelude.{◌≡◌, ◌<◌, ◌≤◌, IfSome, IsErrOf, OnErr, OnOk};
ghost use Rattle.std.specs.Option.{option_map};
ghost use Rattle.adr_outside.specs.Traffic.{Opens, hung_up};

use adr_io::Fault;
use adr_outside::Net;

/// Why none is open.
#[derive(Clone, Copy)]
pub(crate) enum Unconnected {
    Link,
    NoMemory,
}

/// Opens a connection to a port of this machine.
pub(crate) fn connect<N: Net>(port: u16, net: &mut N) -> Result<(), Unconnected>
    ensures opens { OnOk result (IfSome (N.traffic net.old) (λ before. Opens before (N.traffic net.new))) }
    ensures closed { OnErr result (option_map hung_up (N.traffic net.new) ≡ option_map hung_up (N.traffic net.old)) }
    ensures failed { IsErrOf result Unconnected.Link → N.doors net.old < N.doors net.new }
    ensures passed { OnOk result (N.doors net.new ≡ N.doors net.old) }
    ensures no_memory { IsErrOf result Unconnected.NoMemory → N.doors net.new ≡ N.doors net.old }
    ensures never_falls { N.doors net.old ≤ N.doors net.new }
    ensures lines { N.lines net.new ≡ N.lines net.old }
{
    match net.connect(port) {
        Ok(()) => Ok(()),
        Err(Fault::Failed) => Err(Unconnected::Link),
        Err(Fault::NoMemory) => Err(Unconnected::NoMemory),
    }
}
