//! What is told of a reply. A count that needs more than 32 bits counts as want of memory.

ghost use Rattle.std.specs.Prelude.{◌≡◌, Some, is_some, length, IfOk};
ghost use Rattle.adr_model.specs.World.{rows_in};
ghost use Rattle.adr_outcome.specs.Unsent.{unsent};

use adr_call::Outcome;
use adr_cycle::{Reply, count};
use adr_values::NoMemory;

/// How many rows a reply has.
fn rows_in(reply: &Reply) -> Result<u32, NoMemory>
    ensures { IfOk result (λ count. count ≡ rows_in reply.now) }
{
    let mut rows = 0;
    for item in reply.items() {
        rows = count(rows as usize + item.rows().len())?;
    }
    Ok(rows)
}

/// What is answered where a reply was made.
fn served(reply: &Reply) -> Result<Outcome, NoMemory>
    ensures { IfOk result (λ outcome.
        outcome
        ≡ Outcome.Served reply.now.from reply.now.to (length reply.now.items) (rows_in reply.now) (is_some reply.now.last)) }
{
    Ok(Outcome::Served {
        from: reply.from(),
        to: reply.to(),
        items: count(reply.items().len())?,
        rows: rows_in(reply)?,
        last: reply.last().is_some(),
    })
}

/// A reply, with what is answered where it was made.
pub fn sent(reply: Reply) -> Result<(Outcome, Option<Reply>), NoMemory>
    ensures { IfOk result (λ sent. (sent.1 ≡ Some reply)
        × (sent.0 ≡ Outcome.Served reply.from reply.to (length reply.items) (rows_in reply) (is_some reply.last))) }
{
    let outcome = served(&reply)?;
    Ok((outcome, Some(reply)))
}

/// An answer without a reply.
pub fn unsent(told: Result<Outcome, NoMemory>) -> Result<(Outcome, Option<Reply>), NoMemory>
    ensures { result ≡ unsent told }
{
    match told {
        Ok(outcome) => Ok((outcome, None)),
        Err(failure) => Err(failure),
    }
}
