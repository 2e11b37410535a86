//! Updates.

ghost use Rattle.std.specs.Prelude.{◌≡◌, IfOk};
ghost use Rattle.adr_model.specs.Take.{carries_birth};
ghost use Rattle.adr_model.specs.Update.{is_older};
ghost use Rattle.adr_update.specs.Key.{key_of};
ghost use Rattle.adr_update.specs.Said.{said_of};

use crate::NoMemory;
use crate::key::{Key, is_same};
use adr_values::{Content, LinkStamp, Oid, Stamp};
use std::alloc::Global;
use std::marker::Model;

/// What an update says.
#[derive(Drop)]
pub enum Said {
    /// What a row of an object contains.
    Holds(Content),
    /// Whether a link is present.
    IsPresent(bool),
}

impl Said {
    /// An equal value.
    pub fn copy(&self, alloc: Global) -> Result<Said, NoMemory>
        ensures { IfOk result (λ copy. copy ≡ self.now) }
    {
        match self {
            Said::Holds(content) => Ok(Said::Holds(content.copy(alloc)?)),
            Said::IsPresent(present) => Ok(Said::IsPresent(*present)),
        }
    }
}

/// A row of an object, or a link row, as it is written and sent (MS-DRSR, AttributeStamp and LinkValueStamp). In the
/// stamp of an object's row the moment of creation is 0.
pub struct Update {
    key: Key,
    stamp: LinkStamp,
    said: Said,
}

impl Drop for Update {
    fn drop(self) {
        let Update {
            key: _,
            stamp: _,
            said: _said,
        } = self;
    }
}

impl Model for Update {
    ghost use Rattle.adr_model.specs.Update.{Update as Defined};

    ghost Value = { Defined };

    ghost use Rattle.adr_update.specs.Key.{key_of};
    ghost use Rattle.adr_update.specs.Said.{said_of};

    ghost view = { λ u. record { key = key_of u.key; stamp = u.stamp; said = said_of u.said } };
}

impl Update {
    pub fn new(key: Key, stamp: LinkStamp, said: Said) -> Update
        ensures { result ≡ record { key = key_of key; stamp = stamp; said = said_of said } }
    {
        Update { key, stamp, said }
    }

    pub fn key(&self) -> Key
        ensures { key_of result ≡ self.now.key }
    {
        self.key
    }

    pub fn stamp(&self) -> LinkStamp
        ensures { result ≡ self.now.stamp }
    {
        self.stamp
    }

    pub fn said(&self) -> &Said
        ensures { said_of result.now ≡ self.now.said }
    {
        &self.said
    }

    /// Whether this one has the lesser stamp, and so loses to the other.
    pub fn is_older(&self, other: &Update) -> bool
        ensures { result ≡ is_older self.now other.now }
    {
        self.stamp.cmp(&other.stamp).is_lt()
    }

    /// An equal update.
    pub fn copy(&self, alloc: Global) -> Result<Update, NoMemory>
        ensures { IfOk result (λ copy. copy ≡ self.now) }
    {
        Ok(Update {
            key: self.key,
            stamp: self.stamp,
            said: self.said.copy(alloc)?,
        })
    }
}

/// Whether a stamp is that of the creation of the object.
pub fn carries_birth(object: &Oid, stamp: &Stamp) -> bool
    ensures { result ≡ carries_birth object.now stamp.now }
{
    stamp.version == 1 && is_same(stamp.inv, object.birth.inv) && stamp.usn == object.birth.usn
}
