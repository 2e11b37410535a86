//! Making and removing links.

ghost use Rattle.std.specs.Prelude.{false, ◌≡◌, ◌≢◌, ◌+◌, ◌<◌, ◌≤◌, Ok, Err, IfOk, IsErrOf, OnOk, is_some, if◌then◌else◌};
ghost use Rattle.std.specs.Option.{option_copied, option_map_or};
ghost use Rattle.std.specs.Result.{result_err};
ghost use Rattle.adr_call.specs.declared.refusal.Table.TheVariants.{Links as links};
ghost use Rattle.adr_call.specs.declared.refusal.WriteRefusal.{WriteRefusal};
ghost use Rattle.adr_model.specs.Store.{row_held, updates_of};
ghost use Rattle.adr_model.specs.Update.{LinkOf};
ghost use Rattle.adr_model.specs.Write.{AddLink, RemoveLink, any_link_refusal, full_refusal, link_limit, link_of, link_refusal, links_in, nodes_held, of_link, says_present, usn_limit, version_limit, version_of, write};
ghost use Rattle.adr_change.specs.Mode.{mode_of};
ghost use Rattle.adr_update.specs.Said.{said_of};
ghost use Rattle.adr_origin.specs.LinkParts.{already_refusal, ends_refusal, start_refusal, write_refusal};

use crate::NoMemory;
use crate::checks::{
    check_mode, check_not_fixed, check_object, check_schema, check_usn, check_version,
};
use crate::stamps::{class_of, object_of, own_change, stamp_after};
use adr_call::{Failure, Table, WriteRefusal};
use adr_state::{Change, Held, Item, Key, LINK_LIMIT, Mode, Rows, Said, State, Update};
use adr_values::{Guid, LinkKey, Unit};
use std::alloc::Global;

/// What a link that a client makes or removes goes between: live objects, by their GUIDs, and under which attribute.
#[derive(Drop)]
pub struct LinkEnds {
    pub from: Guid,
    pub attr: u16,
    pub to: Guid,
}

/// What a client's making a link under an attribute makes of a controller at a time in seconds: the change, or why it is
/// refused, first in order (MS-ADTS, modify operation, and linked values; the refusals and their order are this project's
/// own). A link that was removed is made again by its own row. The controller stays as it is.
pub fn link(
    alloc: Global,
    state: &State,
    ends: &LinkEnds,
    now: u64,
) -> Result<Change, Failure<WriteRefusal>>
    ensures ok { IfOk result (λ change.
        write state.now (AddLink ends.now.from ends.now.attr ends.now.to) now ≡ Ok change) }
    ensures within { IfOk result (λ change. change.usn ≤ usn_limit) }
    ensures refused { (refusal : WriteRefusal) → IsErrOf result (Failure.Refused refusal)
        → write state.now (AddLink ends.now.from ends.now.attr ends.now.to) now ≡ Err refusal }
{
    let link = link_of(state, ends);
    let held = state.rows().row(Key::Link(link));
    check_link(state, ends, &link, held)?;
    let item = link_item(alloc, state, &link, held, now, true)?;
    Ok(own_change(alloc, state, item)?)
}

/// What a client's removing a link under an attribute makes of a controller at a time in seconds: the change, or why it
/// is refused, first in order (MS-ADTS, modify operation, and linked values; the refusals and their order are this
/// project's own). The link's row stays, and says that the link is not there. The controller stays as it is.
pub fn unlink(
    alloc: Global,
    state: &State,
    ends: &LinkEnds,
    now: u64,
) -> Result<Change, Failure<WriteRefusal>>
    ensures ok { IfOk result (λ change.
        write state.now (RemoveLink ends.now.from ends.now.attr ends.now.to) now ≡ Ok change) }
    ensures within { IfOk result (λ change. change.usn ≤ usn_limit) }
    ensures refused { (refusal : WriteRefusal) → IsErrOf result (Failure.Refused refusal)
        → write state.now (RemoveLink ends.now.from ends.now.attr ends.now.to) now ≡ Err refusal }
{
    let link = link_of(state, ends);
    let held = state.rows().row(Key::Link(link));
    check_any_link(state, ends, &link, held, false)?;
    let item = link_item(alloc, state, &link, held, now, false)?;
    Ok(own_change(alloc, state, item)?)
}

/// Tests that a link may be made.
fn check_link(
    state: &State,
    ends: &LinkEnds,
    link: &LinkKey,
    held: Option<&Held>,
) -> Result<(), WriteRefusal>
    requires named { link.now
        ≡ link_of (nodes_held (updates_of state.now.store.rows)) ends.now.from ends.now.attr ends.now.to }
    requires held { option_copied held ≡ row_held state.now.store.rows (LinkOf link.now) }
    ensures told { result_err result ≡ link_refusal state.now ends.now.from ends.now.attr ends.now.to }
    ensures version { OnOk result (version_of (option_copied held.entry) ≢ version_limit) }
    ensures usn { OnOk result (state.now.store.usn < usn_limit) }
{
    check_any_link(state, ends, link, held, true)?;
    check_links(state.rows(), held)
}

/// Tests that a link may be made or removed, apart from how many there are.
fn check_any_link(
    state: &State,
    ends: &LinkEnds,
    link: &LinkKey,
    held: Option<&Held>,
    present: bool,
) -> Result<(), WriteRefusal>
    requires named { link.now
        ≡ link_of (nodes_held (updates_of state.now.store.rows)) ends.now.from ends.now.attr ends.now.to }
    requires held { option_copied held ≡ row_held state.now.store.rows (LinkOf link.now) }
    ensures told { result_err result
        ≡ any_link_refusal state.now ends.now.from ends.now.attr ends.now.to (already_refusal present) }
    ensures version { OnOk result (version_of (option_copied held.entry) ≢ version_limit) }
    ensures usn { OnOk result (state.now.store.usn < usn_limit) }
{
    check_start(state.mode(), ends.from, ends.to)?;
    check_ends(state, ends)?;
    check_write(state, link, held, present)
}

/// Tests that a controller takes writes, and that neither end is always there.
fn check_start(mode: Mode, from: Guid, to: Guid) -> Result<(), WriteRefusal>
    ensures { result_err result ≡ start_refusal (mode_of mode) from to }
{
    check_mode(mode)?;
    check_not_fixed(from)?;
    check_not_fixed(to)
}

/// Tests that both ends are live objects, and that the schema lets the first have such links.
fn check_ends(state: &State, ends: &LinkEnds) -> Result<(), WriteRefusal>
    ensures { result_err result
        ≡ ends_refusal state.now (nodes_held (updates_of state.now.store.rows)) ends.now.from ends.now.attr ends.now.to }
{
    check_object(state, ends.from)?;
    let class = class_of(state, ends.from);
    check_schema(state.schema().check_link(class, ends.attr))?;
    check_object(state, ends.to)
}

/// The name of a link between live objects. Where an end isn't live, the link is refused.
fn link_of(state: &State, ends: &LinkEnds) -> LinkKey
    ensures { result
        ≡ link_of (nodes_held (updates_of state.now.store.rows)) ends.now.from ends.now.attr ends.now.to }
{
    LinkKey {
        from: object_of(state, ends.from),
        attr: ends.attr,
        to: object_of(state, ends.to),
    }
}

/// Tests that a link is not yet as it is to be, and that its row can be written.
fn check_write(
    state: &State,
    link: &LinkKey,
    held: Option<&Held>,
    present: bool,
) -> Result<(), WriteRefusal>
    requires { option_copied held ≡ row_held state.now.store.rows (LinkOf link.now) }
    ensures told { result_err result ≡ write_refusal state.now link.now present }
    ensures version { OnOk result (version_of (option_copied held.entry) ≢ version_limit) }
    ensures usn { OnOk result (state.now.store.usn < usn_limit) }
{
    check_change(is_linked(held), present)?;
    check_version(held, link.attr)?;
    check_usn(state.usn())
}

/// Tests that a link is not yet as it is to be.
fn check_change(linked: bool, present: bool) -> Result<(), WriteRefusal>
    ensures { result_err result ≡ already_refusal present linked }
{
    match (present, linked) {
        (true, true) => Err(WriteRefusal::LinkThere),
        (false, false) => Err(WriteRefusal::LinkNotThere),
        _ => Ok(()),
    }
}

fn says_present(said: &Said) -> bool
    ensures { result ≡ says_present (said_of said.now) }
{
    match said {
        Said::IsPresent(present) => *present,
        Said::Holds(_) => false,
    }
}

/// Whether a link of this row is there.
fn is_linked(held: Option<&Held>) -> bool
    ensures { result ≡ option_map_or (λ h. says_present h.update.said) (option_copied held.entry) false }
{
    match held {
        Some(held) => says_present(held.update().said()),
        None => false,
    }
}

/// Tests that there is room for the row of a link, which may be held already.
fn check_links(rows: &Rows, held: Option<&Held>) -> Result<(), WriteRefusal>
    ensures { result_err result
        ≡ full_refusal links link_limit (links_in rows.now + (if is_some (option_copied held.entry) then 0 else 1)) }
{
    let is_held = held.is_some();
    let most = if is_held { LINK_LIMIT } else { LINK_LIMIT - 1 };
    if rows.links() as u64 <= most {
        Ok(())
    } else {
        Err(WriteRefusal::Full {
            table: Table::Links,
            limit: LINK_LIMIT,
        })
    }
}

/// The row of a link, one version on.
fn link_item(
    alloc: Global,
    state: &State,
    link: &LinkKey,
    held: Option<&Held>,
    now: u64,
    present: bool,
) -> Result<Item, NoMemory>
    requires usn { state.now.store.usn < usn_limit }
    requires held { option_copied held ≡ row_held state.now.store.rows (LinkOf link.now) }
    requires version { version_of (option_copied held) ≢ version_limit }
    ensures { IfOk result (λ item. item ≡ of_link state.now now link.now present) }
{
    let key = Key::Link(*link);
    let stamp = stamp_after(state, &key, held, now);
    let mut rows = Vec::new(alloc);
    rows.push(Update::new(key, stamp, Said::IsPresent(present)))?;
    Ok(Item::new(Unit::Link(*link), rows))
}
