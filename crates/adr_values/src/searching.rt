//! Where an identifier stands in a list that rises by identifier.

ghost use Rattle.std.specs.Prelude.{IfErr, IfOk};
ghost use Rattle.std.specs.List.Sorted.{IsStrictlySortedBy};
ghost use Rattle.std.specs.Map.{keys_of};
ghost use Rattle.adr_values.specs.Order.{identifier_order};
ghost use Rattle.adr_values.specs.Place.{IsAt, IsGapFor};

use crate::guid::Guid;

/// Where the identifier stands, or where it would.
pub fn search(cursors: &[(Guid, u64)], inv: Guid) -> Result<usize, usize>
    requires { IsStrictlySortedBy identifier_order (keys_of cursors.now) }
    ensures found { IfOk result (IsAt cursors.now inv) }
    ensures gap { IfErr result (IsGapFor cursors.now inv) }
{
    cursors.binary_search_by_key(&inv, |cursor| cursor.0)
}
