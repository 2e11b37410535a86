//! What a search lists.

ghost use Rattle.std.specs.Prelude.{◌≡◌, ◌&&◌, ◌==◌, IfOk, IsErrOf, Ok, Err, false, length, map, true};
ghost use Rattle.std.specs.List.{list_any};
ghost use Rattle.std.specs.Str.{bytes_eq};
ghost use Rattle.adr_values.specs.declared.failure.Failure.TheVariants.{Refused};
ghost use Rattle.adr_filter.specs.Seen.{tree};
ghost use Rattle.adr_search.specs.Plans.{chosen, truth_in};
ghost use Rattle.adr_search.specs.Scopes.{AreRising, found, has_base, is_in_scope, is_top};
ghost use Rattle.adr_search.specs.Searched.{searched};
ghost use Rattle.adr_search.specs.Truths.{is_true};

use crate::plan::{Plan, held_against, read_filter};
use crate::refusal::{NoBase, SearchRefusal};
use crate::ways::below;
use adr_call::{Directory, Entry, Guids};
use adr_filter::{Filter, Scope, parse_filter};
use adr_values::{Failure, Guid, NoMemory};
use std::alloc::Global;

fn is_top(guid: Guid) -> bool
    ensures { result ≡ is_top guid }
{
    guid == Guid::from_u128(1) || guid == Guid::from_u128(2)
}

fn has_entry(entries: &[Entry], guid: Guid) -> bool
    ensures { result ≡ list_any (λ e. bytes_eq e.guid guid) entries.now }
{
    for entry in entries {
        if entry.guid == guid {
            return true;
        }
    }
    false
}

fn has_base(entries: &[Entry], base: Guid) -> bool
    ensures { result ≡ has_base entries.now base }
{
    is_top(base) || has_entry(entries, base)
}

fn with_guid(alloc: Global, entries: &[Entry], guid: Guid) -> Result<Vec<bool>, NoMemory>
    ensures { IfOk result (λ marks. marks.items ≡ map (λ e. bytes_eq e.guid guid) entries.now) }
{
    let mut marks = Vec::with_capacity(alloc, entries.len())?;
    for entry in entries {
        marks.push(entry.guid == guid)?;
    }
    Ok(marks)
}

fn with_parent(alloc: Global, entries: &[Entry], guid: Guid) -> Result<Vec<bool>, NoMemory>
    ensures { IfOk result (λ marks. marks.items ≡ map (λ e. bytes_eq e.parent guid) entries.now) }
{
    let mut marks = Vec::with_capacity(alloc, entries.len())?;
    for entry in entries {
        marks.push(entry.parent == guid)?;
    }
    Ok(marks)
}

/// Of each entry whether it is in scope.
fn in_scope(
    alloc: Global,
    entries: &[Entry],
    base: Guid,
    scope: Scope,
) -> Result<Vec<bool>, NoMemory>
    requires rising { AreRising entries.now }
    ensures { IfOk result (λ marks. marks.items ≡ map (is_in_scope entries.now base scope) entries.now) }
{
    match scope {
        Scope::Base => with_guid(alloc, entries, base),
        Scope::One => with_parent(alloc, entries, base),
        Scope::Sub => below(alloc, entries, base),
    }
}

/// Whether an entry is in scope, and a filter is true of it.
fn is_chosen(alloc: Global, marked: bool, plan: &Plan, entry: &Entry) -> Result<bool, NoMemory>
    ensures { IfOk result (λ chosen. chosen ≡ (marked && is_true (truth_in plan.now entry.now))) }
{
    if !marked {
        return Ok(false);
    }
    Ok(held_against(alloc, plan, entry)?.is_true())
}

/// The GUIDs of the entries that are marked, and of which a filter is true.
fn chosen(
    alloc: Global,
    entries: &[Entry],
    marks: &[bool],
    plan: &Plan,
) -> Result<Vec<Guid>, NoMemory>
    requires { length marks.now ≡ length entries.now }
    ensures { IfOk result (λ guids. guids.items ≡ chosen (truth_in plan.now) marks.now entries.now) }
{
    let mut guids = Vec::new(alloc);
    for (place, entry) in entries.iter().enumerate() {
        if is_chosen(alloc, marks[place], plan, entry)? {
            guids.push(entry.guid)?;
        }
    }
    Ok(guids)
}

/// The GUIDs of the entries in scope of which a filter is true.
fn found(
    alloc: Global,
    entries: &[Entry],
    base: Guid,
    scope: Scope,
    filter: &Filter,
) -> Result<Vec<Guid>, NoMemory>
    requires rising { AreRising entries.now }
    ensures { IfOk result (λ guids. guids.items ≡ found entries.now base scope (tree filter.now)) }
{
    let marks = in_scope(alloc, entries, base, scope)?;
    let plan = read_filter(alloc, filter)?;
    chosen(alloc, entries, marks.as_slice(), &plan)
}

/// The GUIDs of the entries in scope of which the filter is true, in the order of the directory.
pub fn search(
    alloc: Global,
    directory: &Directory,
    base: Guid,
    scope: Scope,
    filter: &Filter,
) -> Result<Guids, Failure<NoBase>>
    requires rising { AreRising directory.now }
    ensures ok { IfOk result (λ guids. (has_base directory.now base ≡ true) × (guids ≡ found directory.now base scope (tree filter.now))) }
    ensures refused { (refusal : NoBase) → IsErrOf result (Failure.Refused refusal) → (has_base directory.now base ≡ false) × (refusal.guid ≡ base) }
{
    let entries = directory.entries();
    if !has_base(entries, base) {
        return Err(Failure::Refused(NoBase { guid: base }));
    }
    Ok(Guids::of(found(alloc, entries, base, scope, filter)?))
}

/// The same, with the filter as its text. A text that is no filter is refused before a base that isn't there.
pub fn search_by_text(
    alloc: Global,
    directory: &Directory,
    base: Guid,
    scope: Scope,
    text: &str,
) -> Result<Guids, Failure<SearchRefusal>>
    requires rising { AreRising directory.now }
    ensures ok { IfOk result (λ guids. searched directory.now base scope text.now ≡ Ok guids) }
    ensures refused { (refusal : SearchRefusal) → IsErrOf result (Failure.Refused refusal) → searched directory.now base scope text.now ≡ Err refusal }
{
    let filter = match parse_filter(alloc, text) {
        Ok(filter) => filter,
        Err(Failure::NoMemory) => return Err(Failure::NoMemory),
        Err(Failure::Refused(bad)) => {
            return Err(Failure::Refused(SearchRefusal::BadFilter { place: bad.place }));
        }
    };
    match search(alloc, directory, base, scope, &filter) {
        Ok(guids) => Ok(guids),
        Err(Failure::NoMemory) => Err(Failure::NoMemory),
        Err(Failure::Refused(missing)) => Err(Failure::Refused(SearchRefusal::NoBase {
            guid: missing.guid,
        })),
    }
}
