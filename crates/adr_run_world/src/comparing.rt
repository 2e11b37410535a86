//! Whether controllers show the same, and have one vector.

ghost use Rattle.std.specs.Prelude.{◌≡◌, ◌∷◌, IfOk};
ghost use Rattle.std.specs.Cmp.Lexicographic.{pointwise};
ghost use Rattle.adr_model.specs.Rings.{same_cursor, same_entry, same_option, show_alike, told_of, vectors_alike};
ghost use Rattle.adr_model.specs.Store.{State};
ghost use Rattle.adr_model.specs.World.{shown};
ghost use Rattle.adr_run_world.specs.Run.{IsSoundRun, world_of};

use crate::run::Run;
use adr_values::{NoMemory, Text, Vector};
use adr_view::{Directory, directory, formed_rows_have_back_links, same_directory, same_vector};
use std::alloc::Global;

/// Whether two controllers show the same, or neither shows anything.
fn show_same(a: &Option<Directory>, b: &Option<Directory>) -> bool
    ensures { result ≡ same_option (pointwise same_entry) a.now b.now }
{
    match (a, b) {
        (Some(a), Some(b)) => same_directory(a, b),
        (None, None) => true,
        _ => false,
    }
}

/// Whether two controllers have seen the same, or neither tells.
fn saw_same(a: &Option<Vector>, b: &Option<Vector>) -> bool
    ensures { result ≡ same_option (pointwise same_cursor) a.now b.now }
{
    match (a, b) {
        (Some(a), Some(b)) => same_vector(a, b),
        (None, None) => true,
        _ => false,
    }
}

impl Run {
    /// What a controller shows, where it is up.
    pub fn shown(&self, alloc: Global, name: &Text) -> Result<Option<Directory>, NoMemory>
        requires { IsSoundRun self.now }
        ensures { IfOk result (λ told. told ≡ told_of (world_of self.now) (shown (world_of self.now)) name.now) }
    {
        let Some(place) = self.place_of(name) else {
            return Ok(None);
        };
        let Ok(state) = self.controllers[place].state() else {
            return Ok(None);
        };
        formed_rows_have_back_links();
        Ok(Some(directory(alloc, state.rows())?))
    }

    /// What a controller has seen of each incarnation, where it is up.
    fn seen(&self, alloc: Global, name: &Text) -> Result<Option<Vector>, NoMemory>
        ensures { IfOk result (λ told. told ≡ told_of (world_of self.now) (λ (s : State). s.store.vector) name.now) }
    {
        let Some(place) = self.place_of(name) else {
            return Ok(None);
        };
        let Ok(state) = self.controllers[place].state() else {
            return Ok(None);
        };
        Ok(Some(state.vector().copy(alloc)?))
    }

    /// Whether all of these show what the first shows. Two directories are held at a time.
    pub fn show_alike(&self, alloc: Global, first: &Text, others: &[Text]) -> Result<bool, NoMemory>
        requires { IsSoundRun self.now }
        ensures { IfOk result (λ alike. alike ≡ show_alike (world_of self.now) (first.now ∷ others.now)) }
    {
        let all = self.shown(alloc, first)?;
        'directories: for place in 0..others.len() {
            let own = self.shown(alloc, &others[place])?;
            if !show_same(&all, &own) {
                return Ok(false);
            }
        }
        Ok(true)
    }

    /// Whether all of these have the vector of the first.
    pub fn vectors_alike(
        &self,
        alloc: Global,
        first: &Text,
        others: &[Text],
    ) -> Result<bool, NoMemory>
        ensures { IfOk result (λ alike. alike ≡ vectors_alike (world_of self.now) (first.now ∷ others.now)) }
    {
        let all = self.seen(alloc, first)?;
        'vectors: for place in 0..others.len() {
            let own = self.seen(alloc, &others[place])?;
            if !saw_same(&all, &own) {
                return Ok(false);
            }
        }
        Ok(true)
    }
}
