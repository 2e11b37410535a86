//! Where the parts of a log stand, and the bytes that tell them apart.

ghost use Rattle.std.specs.Prelude.{◌≡◌, ◌==◌};
ghost use Rattle.adr_law_journal.specs.Areas.{selects_second, slot_place};
ghost use Rattle.adr_law_journal.specs.Commits.{selector_of};

/// A gate that is open; every other byte is a closed one.
pub const OPEN_GATE: u8 = 0xC3;

/// The closed gate that is written.
pub(crate) const CLOSED_GATE: u8 = 0;

/// The place of the byte that selects a slot, behind the head.
pub(crate) const SELECTOR: u64 = 39;

/// The places of the slots, each of which holds the place of an area in eight bytes.
pub(crate) const FIRST_SLOT: u64 = 40;

pub(crate) const SECOND_SLOT: u64 = 48;

/// The selector that selects the second slot; every other one selects the first.
pub(crate) const SELECTS_SECOND: u8 = 0xC3;

/// The selector of the first slot that is written.
pub(crate) const SELECTS_FIRST: u8 = 0;

/// The place of a slot.
pub(crate) fn slot_of(second: bool) -> u64
    ensures { result ≡ slot_place second }
{
    if second { SECOND_SLOT } else { FIRST_SLOT }
}

/// The selector that is written to select a slot.
pub(crate) fn selector_of(second: bool) -> u8
    ensures is { result ≡ selector_of second }
    ensures selects { (result == selects_second) ≡ second }
{
    if second {
        SELECTS_SECOND
    } else {
        SELECTS_FIRST
    }
}
