//! Which entries lie below a base. Where going up from each leads is found for one step, and then for twice as many steps
//! by two ways in a row, so that no chain is walked up entry by entry.

ghost use Rattle.std.specs.Prelude.{◌≡◌, IfOk, length, map, suc};
ghost use Rattle.adr_search.specs.Scopes.{AreRising, climbs};
ghost use Rattle.adr_search.specs.Ways.{AreWays, ends_inside, end_at, further, place_in, IsRisingList, way_of};

use adr_call::Entry;
use adr_values::{Guid, NoMemory};
use std::alloc::Global;

/// Where going up leads in some steps.
#[derive(Clone, Copy)]
pub enum Way {
    /// It ends, inside if it met the base.
    Ends(bool),
    /// It comes to the entry at this place.
    Leads(usize),
}

impl Way {
    /// Whether the base was met. A way that still leads on, after more steps than there are entries, goes in a circle.
    fn ends_inside(self) -> bool
        ensures { result ≡ ends_inside self }
    {
        match self {
            Way::Ends(inside) => inside,
            Way::Leads(_) => false,
        }
    }
}

/// Whether going up ends at this GUID, and if so, whether it meets the base.
fn end_at(base: Guid, guid: Guid) -> Option<bool>
    ensures { result ≡ end_at base guid }
{
    let root = Guid::from_u128(1);
    if guid == base {
        Some(true)
    } else if guid == root {
        Some(false)
    } else if guid == Guid::from_u128(2) {
        Some(root == base)
    } else {
        None
    }
}

/// The place of a GUID among GUIDs that rise.
fn place_in(guids: &[Guid], guid: Guid) -> Option<usize>
    requires { IsRisingList guids.now }
    ensures { result ≡ place_in guids.now guid }
{
    match guids.binary_search(&guid) {
        Ok(place) => Some(place),
        Err(_) => None,
    }
}

/// Where one step up from an entry leads, of which this is the GUID, and this the parent.
fn way_of(guids: &[Guid], base: Guid, guid: Guid, parent: Guid) -> Way
    requires { IsRisingList guids.now }
    ensures { result ≡ way_of guids.now base guid parent }
{
    if let Some(inside) = end_at(base, guid) {
        return Way::Ends(inside);
    }
    if let Some(inside) = end_at(base, parent) {
        return Way::Ends(inside);
    }
    match place_in(guids, parent) {
        Some(place) => Way::Leads(place),
        None => Way::Ends(false),
    }
}

fn guids_of(alloc: Global, entries: &[Entry]) -> Result<Vec<Guid>, NoMemory>
    ensures { IfOk result (λ guids. guids.items ≡ map (λ e. e.guid) entries.now) }
{
    let mut guids = Vec::with_capacity(alloc, entries.len())?;
    for entry in entries {
        guids.push(entry.guid)?;
    }
    Ok(guids)
}

/// Where one step up leads from each entry.
fn ways_from(
    alloc: Global,
    guids: &[Guid],
    entries: &[Entry],
    base: Guid,
) -> Result<Vec<Way>, NoMemory>
    requires { IsRisingList guids.now }
    ensures { IfOk result (λ ways. ways.items ≡ map (λ e. way_of guids.now base e.guid e.parent) entries.now) }
{
    let mut ways = Vec::with_capacity(alloc, entries.len())?;
    for entry in entries {
        ways.push(way_of(guids, base, entry.guid, entry.parent))?;
    }
    Ok(ways)
}

/// A way, and then the way of the entry to which it leads.
fn further(ways: &[Way], way: Way) -> Way
    ensures { result ≡ further ways.now way }
{
    match way {
        Way::Ends(_) => way,
        Way::Leads(place) => match ways.get(place) {
            Some(next) => *next,
            None => Way::Ends(false),
        },
    }
}

/// The ways of twice as many steps.
fn doubled(alloc: Global, ways: &[Way]) -> Result<Vec<Way>, NoMemory>
    ensures { IfOk result (λ next. next.items ≡ map (further ways.now) ways.now) }
{
    let mut next = Vec::with_capacity(alloc, ways.len())?;
    for way in ways {
        next.push(further(ways, *way))?;
    }
    Ok(next)
}

/// The ways of one step.
fn first_ways(alloc: Global, entries: &[Entry], base: Guid) -> Result<Vec<Way>, NoMemory>
    requires rising { AreRising entries.now }
    ensures { IfOk result (λ ways. AreWays entries.now base 1 ways.items) }
{
    let guids = guids_of(alloc, entries)?;
    ways_from(alloc, guids.as_slice(), entries, base)
}

/// The ways of so many steps that each that ends has ended.
fn all_ways(alloc: Global, entries: &[Entry], base: Guid) -> Result<Vec<Way>, NoMemory>
    requires rising { AreRising entries.now }
    ensures { IfOk result (λ ways. map ends_inside ways.items ≡ map (λ e. climbs entries.now base (suc (length entries.now)) e.guid) entries.now) }
{
    let most = entries.len() as u128 + 1;
    let mut ways = first_ways(alloc, entries, base)?;
    let mut steps: u128 = 1;
    while steps <= most {
        ways = doubled(alloc, ways.as_slice())?;
        steps *= 2;
    }
    Ok(ways)
}

/// Of each entry whether going up from it meets the base.
pub fn below(alloc: Global, entries: &[Entry], base: Guid) -> Result<Vec<bool>, NoMemory>
    requires rising { AreRising entries.now }
    ensures { IfOk result (λ marks. marks.items ≡ map (λ e. climbs entries.now base (suc (length entries.now)) e.guid) entries.now) }
{
    let ways = all_ways(alloc, entries, base)?;
    let mut marks = Vec::with_capacity(alloc, ways.len())?;
    for way in &ways {
        marks.push(way.ends_inside())?;
    }
    Ok(marks)
}
