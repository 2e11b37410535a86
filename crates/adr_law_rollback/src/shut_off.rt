//! What a controller that is shut off does.

ghost use Rattle.adr_law_rollback.specs.ShutOff.{QuarantineHolds, QuarantineHoldsThroughout, QuarantinedRefusesAll};

/// A quarantined controller refuses every write, request, reply, collection and change of schema, and gives no image.
pub fn quarantined_controllers_are_shut_off()
    ensures { QuarantinedRefusesAll }
{}

/// In a world a controller that is quarantined, with nothing waiting on its disk, stays as it is behind
/// every line that puts nothing back on its disk, whatever stops, faults and starts it has: none of its
/// answers says that it wrote, served, took or collected (*line*). So it is throughout such lines (*lines*).
pub fn quarantine_holds()
    ensures line { QuarantineHolds }
    ensures lines { QuarantineHoldsThroughout }
{}
