//! Why a call was refused. A message reads as the refusal is answered, without its number: identifiers in their full
//! form, and attributes by their numbers. Of a bad item it also tells the fields of the cause, of which an answer has the
//! name alone.

ghost use Rattle.std.specs.Prelude.{◌≡◌};
ghost use Rattle.adr_values.specs.declared.failure.Failure.TheVariants.{Refused as refused};

use adr_values::{Failure, Guid, Mark, Oid, SchemaRefusal};
use std::fmt;
use thiserror::Error;

/// A table that has a limit.
#[derive(Clone, Copy)]
pub enum Table {
    /// The objects that a controller holds, live or dead.
    Objects,
    /// The link rows that it holds, present or not.
    Links,
    /// The cursors of its vector.
    Cursors,
    /// The partners whose marks it keeps.
    Marks,
    /// The bytes of its journal.
    Log,
}

impl fmt::Display for Table {
    fn fmt<W: fmt::Write>(&self, f: &mut fmt::Formatter<W>) -> fmt::Result {
        f.write_str(match self {
            Table::Objects => "Objects",
            Table::Links => "Links",
            Table::Cursors => "Cursors",
            Table::Marks => "Marks",
            Table::Log => "Log",
        })
    }
}

/// Why an originating write was refused. It then changed nothing. An `attr` is an attribute's number.
#[derive(Clone, Copy, Error)]
pub enum WriteRefusal {
    /// The schema refuses what it would write.
    #[error(transparent)]
    Schema(SchemaRefusal),
    /// No object of the class may stand under the parent.
    #[error("BadSuperior")]
    BadSuperior,
    /// No object of the GUID is held.
    #[error("NoObject guid=#{guid}")]
    NoObject { guid: Guid },
    /// Objects of the GUID are held, and all are dead.
    #[error("Deleted guid=#{guid}")]
    Deleted { guid: Guid },
    /// The parent is neither fixed nor a live object.
    #[error("NoParent guid=#{guid}")]
    NoParent { guid: Guid },
    /// An object under the parent has a name that folds alike; `holder` keeps that name.
    #[error("NameTaken holder=#{holder}")]
    NameTaken { holder: Guid },
    /// The object would come to stand under itself.
    #[error("WouldLoop")]
    WouldLoop,
    /// A live object is placed under it; `child` is the least.
    #[error("HasChildren child=#{child}")]
    HasChildren { child: Guid },
    /// The GUID is that of the root or of LostAndFound.
    #[error("Fixed guid=#{guid}")]
    Fixed { guid: Guid },
    /// The GUID is that of the root or of LostAndFound, or an object of it is held, live or dead.
    #[error("GuidThere guid=#{guid}")]
    GuidThere { guid: Guid },
    /// The link is there.
    #[error("LinkThere")]
    LinkThere,
    /// The link is not there.
    #[error("LinkNotThere")]
    LinkNotThere,
    /// A row's version can't rise.
    #[error("VersionLimit attr=%{attr}")]
    VersionLimit { attr: u16 },
    /// The USN can't rise.
    #[error("UsnLimit")]
    UsnLimit,
    /// The table would pass its limit.
    #[error("Full table={table} limit={limit}")]
    Full { table: Table, limit: u64 },
    /// The controller showed a partner that its database was put back without a fresh identifier.
    #[error("Quarantined")]
    Quarantined,
    /// The image is of a later schema.
    #[error("SchemaMismatch mine={mine} theirs={theirs}")]
    SchemaMismatch { mine: u32, theirs: u32 },
    /// The image shows no object of the GUID.
    #[error("NotInImage guid=#{guid}")]
    NotInImage { guid: Guid },
    /// A live object of the GUID is held.
    #[error("StillLive guid=#{guid}")]
    StillLive { guid: Guid },
    /// What the object would be named by is named already.
    #[error("BirthThere guid=#{guid}")]
    BirthThere { guid: Guid },
}

impl From<WriteRefusal> for Failure<WriteRefusal> {
    ghost from_gives = { λ refusal e. e ≡ refused refusal };

    fn from(refusal: WriteRefusal) -> Failure<WriteRefusal> {
        Failure::Refused(refusal)
    }
}

/// Why a request for changes was refused (MS-DRSR, GetNCChanges; the rules are this project's own).
#[derive(Clone, Copy, Error)]
pub enum ServeRefusal {
    /// The controller is quarantined.
    #[error("Quarantined")]
    Quarantined,
    /// The request is for another controller.
    #[error("WrongController mine=#{mine} asked=#{asked}")]
    WrongController { mine: Guid, asked: Guid },
    /// The mark's numbers are out of order.
    #[error("BadMark prop={prop} obj={obj} seen={seen}")]
    BadMark { prop: u64, obj: u64, seen: u64 },
    /// The asker has seen more of this incarnation than there is: the database was put back.
    #[error("RolledBack inv=#{inv} mine={mine} shown={shown}")]
    RolledBack { inv: Guid, mine: u64, shown: u64 },
    /// The two controllers have different schemas.
    #[error("SchemaMismatch mine={mine} theirs={theirs}")]
    SchemaMismatch { mine: u32, theirs: u32 },
    /// Objects were collected whose births or deaths the asker hasn't seen.
    #[error("TooOld inv=#{inv} purged={purged} has={has}")]
    TooOld { inv: Guid, purged: u64, has: u64 },
}

/// What is wrong with a row of an item.
#[derive(Clone, Copy, Error)]
pub enum ItemFault {
    /// It breaks the schema.
    #[error(transparent)]
    Schema(SchemaRefusal),
    /// It is a class row that isn't the object's birth.
    #[error("WrongBirth")]
    WrongBirth,
}

/// Why a reply was not taken. Nothing of it was taken; a controller that answers `RolledBack` is quarantined.
#[derive(Clone, Copy, Error)]
pub enum TakeRefusal {
    /// The controller is quarantined.
    #[error("Quarantined")]
    Quarantined,
    /// The reply is for another controller.
    #[error("NotMine dest=#{dest}")]
    NotMine { dest: Guid },
    /// The reply doesn't begin where the last one of its source ended.
    #[error("Stale mark={mark} from={from}")]
    Stale { mark: Mark, from: Mark },
    /// The reply was made for a vector that this controller doesn't have.
    #[error("VectorBehind inv=#{inv} has={has} needs={needs}")]
    VectorBehind { inv: Guid, has: u64, needs: u64 },
    /// The two controllers have different schemas.
    #[error("SchemaMismatch mine={mine} theirs={theirs}")]
    SchemaMismatch { mine: u32, theirs: u32 },
    /// The source has seen more of this incarnation than there is: the database was put back.
    #[error("RolledBack inv=#{inv} mine={mine} shown={shown}")]
    RolledBack { inv: Guid, mine: u64, shown: u64 },
    /// A row of the item at `place`, from 0, breaks the schema.
    #[error("BadItem place={place} cause={cause}")]
    BadItem { place: u32, cause: ItemFault },
    /// An object that isn't held comes without its class, its name or a value that it must have.
    #[error("Incomplete object=#{}", .object.guid)]
    Incomplete { object: Oid },
    /// The USN can't rise so far.
    #[error("UsnLimit")]
    UsnLimit,
    /// The table would pass its limit.
    #[error("Full table={table} limit={limit}")]
    Full { table: Table, limit: u64 },
}

/// Why tombstones were not collected.
#[derive(Clone, Copy, Error)]
pub enum CollectRefusal {
    /// The controller is quarantined.
    #[error("Quarantined")]
    Quarantined,
    /// The USN can't rise.
    #[error("UsnLimit")]
    UsnLimit,
}

/// Why a controller did not change over to schema 2.
#[derive(Clone, Copy, Error)]
pub enum UpgradeRefusal {
    /// The controller is quarantined.
    #[error("Quarantined")]
    Quarantined,
    /// It has that schema.
    #[error("SchemaThere number={number}")]
    SchemaThere { number: u32 },
}

/// Why an image was not adopted.
#[derive(Clone, Copy, Error)]
pub enum AdoptRefusal {
    /// The image names the identifier.
    #[error("IdentifierUsed")]
    IdentifierUsed,
    /// The table would pass its limit.
    #[error("Full table={table} limit={limit}")]
    Full { table: Table, limit: u64 },
}

// Of each refusal `Debug` is its message.

impl fmt::Debug for Table {
    fn fmt<W: fmt::Write>(&self, f: &mut fmt::Formatter<W>) -> fmt::Result {
        fmt::Display::fmt(self, f)
    }
}

impl fmt::Debug for WriteRefusal {
    fn fmt<W: fmt::Write>(&self, f: &mut fmt::Formatter<W>) -> fmt::Result {
        fmt::Display::fmt(self, f)
    }
}

impl fmt::Debug for ServeRefusal {
    fn fmt<W: fmt::Write>(&self, f: &mut fmt::Formatter<W>) -> fmt::Result {
        fmt::Display::fmt(self, f)
    }
}

impl fmt::Debug for ItemFault {
    fn fmt<W: fmt::Write>(&self, f: &mut fmt::Formatter<W>) -> fmt::Result {
        fmt::Display::fmt(self, f)
    }
}

impl fmt::Debug for TakeRefusal {
    fn fmt<W: fmt::Write>(&self, f: &mut fmt::Formatter<W>) -> fmt::Result {
        fmt::Display::fmt(self, f)
    }
}

impl fmt::Debug for CollectRefusal {
    fn fmt<W: fmt::Write>(&self, f: &mut fmt::Formatter<W>) -> fmt::Result {
        fmt::Display::fmt(self, f)
    }
}

impl fmt::Debug for UpgradeRefusal {
    fn fmt<W: fmt::Write>(&self, f: &mut fmt::Formatter<W>) -> fmt::Result {
        fmt::Display::fmt(self, f)
    }
}

impl fmt::Debug for AdoptRefusal {
    fn fmt<W: fmt::Write>(&self, f: &mut fmt::Formatter<W>) -> fmt::Result {
        fmt::Display::fmt(self, f)
    }
}
