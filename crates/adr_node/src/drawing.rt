//! The identifiers of a new controller.

ghost use Rattle.std.specs.Prelude.{◌≡◌, ◌⊎◌, ◌<◌, ◌≤◌, None, IfOk, IfErr, IfSome, IsErrOf};
ghost use Rattle.adr_outside.specs.Given.{Takes};
ghost use Rattle.adr_node.specs.Makes.{Draws};
ghost use Rattle.adr_wire.specs.Ranges.{IsId};

use crate::ended::by_fault;
use crate::making::Unmade;
use adr_outside::Fresh;
use adr_values::Guid;

/// One fresh identifier.
fn draw_one<F: Fresh>(fresh: &mut F) -> Result<Guid, Unmade>
    ensures taken { IfOk result (λ id. IfSome (F.identifiers fresh.old) (λ before. Takes id before (F.identifiers fresh.new))) }
    ensures why { IfErr result (λ e. (e ≡ Unmade.FreshFault) ⊎ (e ≡ Unmade.NoMemory)) }
    ensures fault { IsErrOf result Unmade.FreshFault → F.faults fresh.old < F.faults fresh.new }
    ensures later { F.faults fresh.old ≤ F.faults fresh.new }
{
    match fresh.identifier() {
        Ok(id) => Ok(id),
        Err(fault) => Err(by_fault(fault, Unmade::FreshFault, Unmade::NoMemory)),
    }
}

/// The controller's identifier, which is given or drawn.
fn draw_dsa<F: Fresh>(given: Option<Guid>, fresh: &mut F) -> Result<Guid, Unmade>
    ensures given { IfSome given (λ dsa. IfOk result (λ id. id ≡ dsa) × (fresh.new ≡ fresh.old)) }
    ensures taken { given ≡ None
        → IfOk result (λ id. IfSome (F.identifiers fresh.old) (λ before. Takes id before (F.identifiers fresh.new))) }
    ensures why { IfErr result (λ e. (e ≡ Unmade.FreshFault) ⊎ (e ≡ Unmade.NoMemory)) }
    ensures fault { IsErrOf result Unmade.FreshFault → F.faults fresh.old < F.faults fresh.new }
    ensures later { F.faults fresh.old ≤ F.faults fresh.new }
{
    match given {
        Some(dsa) => Ok(dsa),
        None => draw_one(fresh),
    }
}

/// The identifiers of a controller and of its database, the controller's first, unless that is given.
pub(crate) fn draw<F: Fresh>(given: Option<Guid>, fresh: &mut F) -> Result<(Guid, Guid), Unmade>
    ensures drawn { IfOk result (λ ids. Draws given (F.identifiers fresh.old) (F.identifiers fresh.new) ids.0 ids.1) }
    ensures ids { IfOk result (λ ids. IsId ids.0 × IsId ids.1) }
    ensures why { IfErr result (λ e. (e ≡ Unmade.FreshFault) ⊎ (e ≡ Unmade.NoMemory)) }
    ensures fault { IsErrOf result Unmade.FreshFault → F.faults fresh.old < F.faults fresh.new }
    ensures later { F.faults fresh.old ≤ F.faults fresh.new }
{
    let dsa = draw_dsa(given, fresh)?;
    let inv = draw_one(fresh)?;
    Ok((dsa, inv))
}
