//! Who finds out that a database was put back.

ghost use Rattle.adr_law_rollback.specs.Found.{FoundByServing, FoundByTaking, FoundByWhoCoversMore, FoundByWhoReadMore, QuarantineQuarantines, ServingShutsOff, TakingShutsOff};

/// A request that shows more of a controller's incarnation than the controller has is refused, with its
/// own number and the one that is shown (*request*). Such is each formed controller's own request whose
/// vector covers more (*covers*), or whose mark was made when there was more (*read*).
pub fn rollbacks_are_found_by_serving()
    ensures request { FoundByServing }
    ensures covers { FoundByWhoCoversMore }
    ensures read { FoundByWhoReadMore }
{}

/// A last reply whose vector covers more of the taker's incarnation than the taker has is refused, where
/// it passes what is tested of it before.
pub fn rollbacks_are_found_by_taking()
    ensures { FoundByTaking }
{}

/// A controller that finds it out by a request answers so, and is shut off: its disk has the quarantined
/// state, and nothing waits on it.
pub fn serving_shuts_off()
    ensures shut { ServingShutsOff }
    ensures quarantined { QuarantineQuarantines }
{}

/// So is one that finds it out by a reply.
pub fn taking_shuts_off()
    ensures { TakingShutsOff }
{}
