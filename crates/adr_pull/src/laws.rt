//! A cycle worked out.

ghost use Rattle.adr_pull.specs.Worked.{IsWorked};

use adr_frames::frames_have_one_spelling;
use adr_packet::replies_have_one_spelling;

/// A partner says who it is and sends a reply: the reply is taken, and its line written.
pub fn worked_pull()
    ensures { IsWorked }
{
    frames_have_one_spelling();
    replies_have_one_spelling();
}
