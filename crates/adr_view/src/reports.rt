//! What a controller tells of what it has.

ghost use Rattle.std.specs.Prelude.{◌≡◌, map, IfOk, IsTrue};
ghost use Rattle.adr_model.specs.Store.{PartnerMark as IsKept, updates_of};
ghost use Rattle.adr_model.specs.Update.{Identifier};
ghost use Rattle.adr_view.specs.BackLinks.{have_back_links};
ghost use Rattle.adr_view.specs.Named.{AreNamed};
ghost use Rattle.adr_view.specs.Report.{report_of};

use crate::NoMemory;
use crate::entries::directory;
use crate::meta::meta;
use adr_call::{Outcome, PartnerMarks, Report};
use adr_state::{Marks, State};
use std::alloc::Global;

/// How far each partner was read, as it is told.
fn partner_marks(alloc: Global, marks: &Marks) -> Result<PartnerMarks, NoMemory>
    ensures { IfOk result (λ told. told ≡ map (λ (k : Identifier × IsKept). (k.0, k.1.inv, k.1.mark)) marks.now) }
{
    let mut list = Vec::new(alloc);
    for (partner, kept) in marks.to_vec(alloc)? {
        list.push((partner, kept.inv(), kept.mark()))?;
    }
    Ok(PartnerMarks::of(list))
}

/// What a client is answered that asks a controller for a report.
pub fn report(alloc: Global, what: Report, state: &State) -> Result<Outcome, NoMemory>
    requires links { IsTrue (have_back_links (updates_of state.now.store.rows)) }
    requires named { AreNamed (updates_of state.now.store.rows) }
    ensures { IfOk result (λ outcome. outcome ≡ report_of what state.now.store) }
{
    match what {
        Report::Directory => Ok(Outcome::Show(directory(alloc, state.rows())?)),
        Report::Vector => Ok(Outcome::Vector {
            vector: state.vector().copy(alloc)?,
            times: state.times().copy(alloc)?,
        }),
        Report::Marks => Ok(Outcome::Marks(partner_marks(alloc, state.marks())?)),
        Report::Meta { guid } => Ok(Outcome::Meta(meta(alloc, state.rows(), guid)?)),
    }
}
