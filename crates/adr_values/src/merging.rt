//! Two rising lists of cursors, read as one.

ghost use Rattle.std.specs.Prelude.{◌≡◌, ◌++◌, option_to_list, length, [], IfNone, IfOk, ◌+◌, ◌<◌, ◌^◌};
ghost use Rattle.adr_values.specs.Merging.{merged};

use crate::failure::NoMemory;
use crate::guid::Guid;
use std::alloc::Global;
use std::cmp::Ordering;
use std::marker::Model;

/// What is left to read of the two lists.
#[derive(Drop)]
pub struct Fronts<'a> {
    left: &'a [(Guid, u64)],
    right: &'a [(Guid, u64)],
}

impl<'a> Model for Fronts<'a> {
    ghost use Rattle.adr_values.specs.Vector.{Cursors};
    ghost use Rattle.adr_values.specs.Merging.{merged};

    ghost Value = { Cursors };

    ghost view = { λ f. merged f.left.now f.right.now };
}

impl<'a> Fronts<'a> {
    pub fn new(left: &'a [(Guid, u64)], right: &'a [(Guid, u64)]) -> Fronts<'a>
        ensures { result ≡ merged left.now right.now }
    {
        Fronts { left, right }
    }

    /// Reads one cursor.
    pub fn next(&mut self) -> Option<(Guid, u64)>
        ensures front { self.old ≡ option_to_list result ++ self.new }
        ensures end { IfNone result (self.old ≡ []) }
    {
        let Some((c, left)) = self.left.split_first() else {
            let (d, right) = self.right.split_first()?;
            self.right = right;
            return Some(*d);
        };
        let Some((d, right)) = self.right.split_first() else {
            self.left = left;
            return Some(*c);
        };
        match c.0.cmp(&d.0) {
            Ordering::Less => {
                self.left = left;
                Some(*c)
            }
            Ordering::Equal => {
                self.left = left;
                self.right = right;
                Some((c.0, c.1.max(d.1)))
            }
            Ordering::Greater => {
                self.right = right;
                Some(*d)
            }
        }
    }
}

/// How many cursors there are of the two lists as one.
pub fn count(left: &[(Guid, u64)], right: &[(Guid, u64)]) -> usize
    requires { length left.now + length right.now < 2 ^ 32 }
    ensures { result ≡ length (merged left.now right.now) }
{
    let mut fronts = Fronts::new(left, right);
    let mut count = 0;
    while let Some(_) = fronts.next() {
        count += 1;
    }
    count
}

/// The two lists as one.
pub fn merge(
    alloc: Global,
    left: &[(Guid, u64)],
    right: &[(Guid, u64)],
) -> Result<Vec<(Guid, u64)>, NoMemory>
    ensures { IfOk result (λ cursors. cursors.items ≡ merged left.now right.now) }
{
    let mut fronts = Fronts::new(left, right);
    let mut cursors = Vec::new(alloc);
    while let Some(cursor) = fronts.next() {
        cursors.push(cursor)?;
    }
    Ok(cursors)
}
