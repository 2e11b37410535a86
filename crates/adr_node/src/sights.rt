//! What the commands write that only look.

ghost use Rattle.std.specs.Prelude.{◌≡◌, IfOk};
ghost use Rattle.adr_records.specs.Logged.{IsLogged};
ghost use Rattle.adr_node.specs.Looks.{backup_bytes, bytes_of, export_bytes, refuses, show_bytes, whole_of};

use crate::ended::Looked;
use crate::lines::refusal_line;
use adr_answers::{Heading, line};
use adr_call::Text;
use adr_json::json;
use adr_outcome::quarantined;
use adr_records::image_of;
use adr_state::State;
use adr_token::push;
use adr_values::NoMemory;
use adr_view::{Report, directory, formed_rows_have_back_links, report};
use std::alloc::Global;

/// What is written of a controller.
#[derive(Clone, Copy)]
pub enum Sight {
    /// Its directory, as a schedule answers `show`.
    Directory,
    /// Its directory, as JSON and a line feed.
    Json,
    /// Its image, which a quarantined controller refuses.
    Image,
}

/// The answer of a `show`: its line, and a line for each entry.
fn show_bytes(alloc: Global, name: &Text, state: &State) -> Result<Vec<u8>, NoMemory>
    requires { IsLogged state.now }
    ensures { IfOk result (λ bytes. bytes.items ≡ show_bytes name.now state.now) }
{
    formed_rows_have_back_links();
    let heading = Heading::new(alloc, "show", name)?;
    let outcome = report(alloc, Report::Directory, state)?;
    line(alloc, &heading.of(outcome))
}

/// The directory as JSON, and a line feed.
fn export_bytes(alloc: Global, state: &State) -> Result<Vec<u8>, NoMemory>
    requires { IsLogged state.now }
    ensures { IfOk result (λ bytes. bytes.items ≡ export_bytes state.now) }
{
    formed_rows_have_back_links();
    let shown = directory(alloc, state.rows())?;
    let mut bytes = json(alloc, &shown)?;
    push(&mut bytes, b"\n")?;
    Ok(bytes)
}

/// The bytes of the image, or the line of its refusal.
fn backup_bytes(alloc: Global, state: &State) -> Result<Vec<u8>, NoMemory>
    requires { IsLogged state.now }
    ensures { IfOk result (λ bytes. bytes.items ≡ backup_bytes state.now) }
{
    if state.mode().is_quarantined() {
        refusal_line(alloc, &quarantined())
    } else {
        image_of(alloc, state)
    }
}

/// What is written of a state.
pub(crate) fn bytes_of(
    alloc: Global,
    sight: Sight,
    name: &Text,
    state: &State,
) -> Result<Vec<u8>, NoMemory>
    requires { IsLogged state.now }
    ensures { IfOk result (λ bytes. bytes.items ≡ bytes_of sight name.now state.now) }
{
    match sight {
        Sight::Directory => show_bytes(alloc, name, state),
        Sight::Json => export_bytes(alloc, state),
        Sight::Image => backup_bytes(alloc, state),
    }
}

/// Whether that is refused.
fn refuses(sight: Sight, state: &State) -> bool
    ensures { result ≡ refuses sight state.now }
{
    match sight {
        Sight::Directory | Sight::Json => false,
        Sight::Image => state.mode().is_quarantined(),
    }
}

/// How a command ends that has written all that is due of a state.
pub(crate) fn whole_of(sight: Sight, state: &State) -> Looked
    ensures { result ≡ whole_of (refuses sight state.now) }
{
    if refuses(sight, state) {
        Looked::Refused
    } else {
        Looked::Done
    }
}
