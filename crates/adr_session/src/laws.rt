//! A session worked out.

ghost use Rattle.adr_model.specs.Store.{State};
ghost use Rattle.adr_law_journal.specs.Areas.{Found};
ghost use Rattle.adr_session.specs.Worked.{IsWorked};

/// A greeting is answered by who is there, and a frame of no kind of a client ends the connection.
pub fn worked_session()
    ensures { (f : Found State) → IsWorked f }
{}
