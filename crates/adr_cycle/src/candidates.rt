//! The items that may be sent, one after the other: what the asker may lack, of the units above its mark.

ghost use Rattle.std.specs.Prelude.{◌≡◌, ◌+◌, ◌<◌, ◌&&◌, IfOk, OnOk, Some, filter, length, slice_get};
ghost use Rattle.std.specs.Option.{option_map};
ghost use Rattle.adr_model.specs.Serve.{is_unseen};
ghost use Rattle.adr_update.specs.Referents.{referents};
ghost use Rattle.adr_table.specs.Lasts.{AreLasts, Last};
ghost use Rattle.adr_cycle.specs.Candidates.{AreBehind, candidate_at, next_candidate, number_after, some_item, unseen_of};

use crate::NoMemory;
use crate::candidate::Candidate;
use adr_state::{Held, Rows, Walk, covers_update};
use adr_values::{Mark, Unit, Vector};
use std::alloc::Global;

/// The first item that may be sent behind a number. Its own number is the last local update sequence number of its
/// unit. It is found among the units that are left, and passes those up to its own.
pub fn next_candidate<'a>(
    alloc: Global,
    rows: &'a Rows,
    from: Mark,
    asked: &Vector,
    walk: &mut Walk<'_>,
    usn: u64,
) -> Result<Option<(u64, Candidate<'a>)>, NoMemory>
    requires { AreBehind rows.now from asked.now usn walk.old }
    ensures next { IfOk result (λ next. next ≡ next_candidate rows.now from asked.now usn) }
    ensures left { IfOk result (λ next. AreBehind rows.now from asked.now (number_after usn next) walk.new) }
{
    while let Some(local) = walk.number() {
        if let Some(candidate) = candidate_at(alloc, rows, from, asked, walk, local)? {
            return Ok(Some((local, candidate)));
        }
    }
    Ok(None)
}

/// The item under the number of the next unit: of the units with this number, that of the last one of which the asker may
/// lack rows.
fn candidate_at<'a>(
    alloc: Global,
    rows: &'a Rows,
    from: Mark,
    asked: &Vector,
    walk: &mut Walk<'_>,
    usn: u64,
) -> Result<Option<Candidate<'a>>, NoMemory>
    requires above { from.obj < usn }
    requires lasts { AreLasts rows.now usn walk.old }
    requires first { option_map (λ (e : Last). e.0) (slice_get walk.old 0) ≡ Some usn }
    ensures item { IfOk result (λ item. item ≡ candidate_at rows.now from asked.now usn) }
    ensures lasts { OnOk result (AreLasts rows.now (usn + 1) walk.new) }
    ensures fewer { OnOk result (length walk.new < length walk.old) }
{
    let mut last = None;
    while let Some(unit) = walk.next_at(usn) {
        let candidate = candidate_of(alloc, rows, from, asked, unit)?;
        last = candidate.or(last);
    }
    Ok(last)
}

/// The rows of a unit that the asker may lack, as an item, if there are any.
fn candidate_of<'a>(
    alloc: Global,
    rows: &'a Rows,
    from: Mark,
    asked: &Vector,
    unit: Unit,
) -> Result<Option<Candidate<'a>>, NoMemory>
    ensures { IfOk result (λ item. item ≡ some_item unit (unseen_of rows.now from asked.now unit)) }
{
    let unseen = unseen_rows(from, asked, rows.rows_of_unit(alloc, &unit)?);
    Ok(candidate_if_any(unit, unseen))
}

/// Those of the rows that the asker may lack.
fn unseen_rows<'a>(from: Mark, asked: &Vector, mut rows: Vec<&'a Held>) -> Vec<&'a Held>
    ensures { referents result.items ≡ filter (is_unseen from asked.now) (referents rows.entry.items) }
{
    rows.retain(|row| is_unseen(from, asked, row));
    rows
}

/// Rows of a unit as an item, if there are any.
fn candidate_if_any<'a>(unit: Unit, rows: Vec<&'a Held>) -> Option<Candidate<'a>>
    ensures { result ≡ some_item unit (referents rows.entry.items) }
{
    if rows.is_empty() {
        None
    } else {
        Some(Candidate::new(unit, rows))
    }
}

/// Whether the asker may lack the row: it is above the mark, and the asker's vector doesn't cover it.
fn is_unseen(from: Mark, asked: &Vector, row: &Held) -> bool
    ensures { result ≡ is_unseen from asked.now row.now }
{
    from.prop < row.local() && !covers_update(asked, row.update())
}
