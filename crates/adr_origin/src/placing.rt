//! Where an object may come to stand, and what stands under it.

ghost use Rattle.std.specs.Prelude.{◌≡◌, ◌||◌, IsSome, OnOk, false, is_some, true};
ghost use Rattle.std.specs.Option.{option_map};
ghost use Rattle.std.specs.Result.{result_err};
ghost use Rattle.adr_call.specs.declared.refusal.WriteRefusal.TheVariants.{NameTaken as name_taken};
ghost use Rattle.adr_values.specs.Numbered.{numbered};
ghost use Rattle.adr_model.specs.Place.{is_fixed, lost_and_found, node_at};
ghost use Rattle.adr_model.specs.Shown.{name_holder};
ghost use Rattle.adr_model.specs.Store.{updates_of};
ghost use Rattle.adr_model.specs.Update.{same_identifier};
ghost use Rattle.adr_model.specs.Write.{child_refusal, class_of_place, loop_refusal, name_refusal, nodes_held, parent_refusal, superior_refusal};
ghost use Rattle.adr_tree.specs.Parent.{IsParent};
ghost use Rattle.adr_origin.specs.Telling.{Tells};

use crate::stamps::class_of;
use adr_call::{Failure, WriteRefusal};
use adr_checks::{LOST_AND_FOUND_CLASS, ROOT_CLASS};
use adr_state::State;
use adr_update::{is_fixed, is_lost_and_found, is_root};
use adr_values::{Guid, Text};
use std::alloc::Global;

/// Tests that an object may come to stand here: under the root, LostAndFound or a live object.
pub fn check_parent(state: &State, parent: Guid) -> Result<(), WriteRefusal>
    ensures told { result_err result ≡ parent_refusal (nodes_held (updates_of state.now.store.rows)) parent }
    ensures there { OnOk result (is_fixed parent || is_some (node_at (nodes_held (updates_of state.now.store.rows)) parent)
        ≡ true) }
{
    if is_fixed(parent) || state.rows().node(parent).is_some() {
        Ok(())
    } else {
        Err(WriteRefusal::NoParent { guid: parent })
    }
}

/// The class that a parent counts as.
fn class_of_place(state: &State, parent: Guid) -> u16
    ensures { result ≡ class_of_place (nodes_held (updates_of state.now.store.rows)) parent }
{
    if is_root(parent) {
        return ROOT_CLASS;
    }
    if is_lost_and_found(parent) {
        return LOST_AND_FOUND_CLASS;
    }
    class_of(state, parent)
}

/// Tests that an object of a class may stand under a parent. Under LostAndFound none may.
pub fn check_superior(state: &State, class: u16, parent: Guid) -> Result<(), WriteRefusal>
    ensures told { result_err result
        ≡ superior_refusal (numbered state.now.store.schema) (nodes_held (updates_of state.now.store.rows)) class parent }
    ensures other { OnOk result (same_identifier parent lost_and_found ≡ false) }
{
    let place = class_of_place(state, parent);
    if state.schema().is_superior(class, place) {
        Ok(())
    } else {
        Err(WriteRefusal::BadSuperior)
    }
}

/// Tests that no object keeps a name in a place.
pub fn check_name_free(
    alloc: Global,
    state: &State,
    parent: Guid,
    text: &Text,
) -> Result<(), Failure<WriteRefusal>>
    requires { IsParent (nodes_held (updates_of state.now.store.rows)) parent }
    ensures { Tells result (option_map name_taken (name_holder (nodes_held (updates_of state.now.store.rows)) parent text.now)) }
{
    match state.rows().holder(alloc, parent, text)? {
        Some(holder) => Err(Failure::Refused(WriteRefusal::NameTaken { holder })),
        None => Ok(()),
    }
}

/// The name and the parent that an object is to have.
#[derive(Drop)]
pub struct NewName<'a> {
    pub guid: Guid,
    pub parent: Guid,
    pub text: &'a Text,
}

/// Tests that no other object has a name in a place.
pub fn check_new_name(
    alloc: Global,
    state: &State,
    name: &NewName<'_>,
) -> Result<(), Failure<WriteRefusal>>
    requires { IsParent (nodes_held (updates_of state.now.store.rows)) name.now.parent }
    ensures { Tells result (name_refusal (nodes_held (updates_of state.now.store.rows)) name.now.guid name.now.parent name.now.text.now) }
{
    let rows = state.rows();
    if rows.is_taken(alloc, name.guid, name.parent, name.text)? {
        check_name_free(alloc, state, name.parent, name.text)
    } else {
        Ok(())
    }
}

/// Tests that an object would not come to stand under itself.
pub fn check_no_loop(state: &State, guid: Guid, parent: Guid) -> Result<(), WriteRefusal>
    ensures { result_err result ≡ loop_refusal (nodes_held (updates_of state.now.store.rows)) guid parent }
{
    if state.rows().is_met_above(parent, guid) {
        Err(WriteRefusal::WouldLoop)
    } else {
        Ok(())
    }
}

/// Tests that no live object is shown under another one.
pub fn check_no_child(state: &State, guid: Guid) -> Result<(), WriteRefusal>
    requires live { IsSome (node_at (nodes_held (updates_of state.now.store.rows)) guid) }
    requires free { is_fixed guid ≡ false }
    ensures { result_err result ≡ child_refusal (nodes_held (updates_of state.now.store.rows)) guid }
{
    match state.rows().first_child(guid) {
        Some(child) => Err(WriteRefusal::HasChildren { child }),
        None => Ok(()),
    }
}
