//! How calls went.

ghost use Rattle.std.specs.Prelude.{◌≡◌, ◌∷◌, []};

use crate::directory::Directory;
use crate::meta::MetaLines;
use crate::partners::PartnerMarks;
use adr_values::{Guid, Mark, Times, Vector};
use std::marker::Model;

/// A word of the program's own, as the name of a refusal or of a field. It takes no memory.
#[derive(Drop)]
pub struct Label {
    text: &'static str,
}

impl Model for Label {
    ghost use Rattle.std.specs.Prelude.{List, ℕ};

    ghost Value = { List ℕ };

    ghost view = { λ l. l.text.now };
}

impl Label {
    pub fn of(text: &'static str) -> Label
        ensures { result ≡ text.now }
    {
        Label { text }
    }

    /// The bytes of the word.
    pub fn items(&self) -> &[u8]
        ensures { result.now ≡ self.now }
    {
        self.text.as_bytes()
    }
}

/// A value in a refusal.
#[derive(Drop)]
pub enum Plainly {
    /// An identifier.
    Id(Guid),
    /// A number.
    Number(u64),
    /// A high watermark.
    Mark(Mark),
    /// An attribute, by its number.
    Attr(u16),
    /// A word that is written as it is.
    Word(Label),
}

/// A named value in a refusal.
#[derive(Drop)]
pub struct Field {
    pub name: Label,
    pub value: Plainly,
}

impl Field {
    pub fn new(name: &'static str, value: Plainly) -> Field
        ensures { result ≡ record { name = name.now; value = value } }
    {
        Field {
            name: Label::of(name),
            value,
        }
    }
}

/// As many fields as a refusal may have.
#[derive(Drop)]
enum Few {
    None,
    One([Field; 1]),
    Two([Field; 2]),
    Three([Field; 3]),
}

/// The fields of a refusal, in the order in which they are written. They stand in the value itself, so that they take no
/// memory.
#[derive(Drop)]
pub struct Fields {
    few: Few,
}

impl Model for Fields {
    ghost use Rattle.std.specs.Prelude.{List};
    ghost use Rattle.adr_call.specs.declared.outcome.Field.{Field};
    ghost use Rattle.adr_call.specs.Few.{all_of};

    ghost Value = { List Field };

    ghost view = { λ f. all_of f.few };
}

impl Fields {
    pub fn none() -> Fields
        ensures { result ≡ [] }
    {
        Fields { few: Few::None }
    }

    pub fn one(field: Field) -> Fields
        ensures { result ≡ field ∷ [] }
    {
        Fields {
            few: Few::One([field]),
        }
    }

    pub fn two(first: Field, second: Field) -> Fields
        ensures { result ≡ first ∷ second ∷ [] }
    {
        Fields {
            few: Few::Two([first, second]),
        }
    }

    pub fn three(first: Field, second: Field, third: Field) -> Fields
        ensures { result ≡ first ∷ second ∷ third ∷ [] }
    {
        Fields {
            few: Few::Three([first, second, third]),
        }
    }

    pub fn items(&self) -> &[Field]
        ensures { result.now ≡ self.now }
    {
        match &self.few {
            Few::None => &[],
            Few::One(fields) => fields.as_slice(),
            Few::Two(fields) => fields.as_slice(),
            Few::Three(fields) => fields.as_slice(),
        }
    }
}

/// How a call of a controller, or a line of a schedule, went.
pub enum Outcome {
    Ok,
    /// An originating write was made; its changes have this USN.
    Usn(u64),
    /// A reply was made, from a mark to a mark; `last` says that nothing is left to send.
    Served {
        from: Mark,
        to: Mark,
        items: u32,
        rows: u32,
        last: bool,
    },
    /// A reply was taken: of its items so many were written, and the USN is this one.
    Took {
        items: u32,
        wrote: u32,
        usn: u64,
    },
    /// So many tombstones were collected.
    Removed(u32),
    /// The directory that was asked for.
    Show(Directory),
    /// What was seen of each incarnation, and when.
    Vector {
        vector: Vector,
        times: Times,
    },
    /// How far each partner was read.
    Marks(PartnerMarks),
    /// The rows of the GUID that was asked for, and which writes made them.
    Meta(MetaLines),
    /// So many rounds were made, and then the directories, and the vectors, were all equal or not.
    Compared {
        rounds: u32,
        directories: bool,
        vectors: bool,
    },
    /// A cycle took its most replies, and none of them was the last.
    More,
    /// The controller that was to be started is up.
    Up,
    /// The controller is stopped.
    Down,
    /// The controller met a device fault, and was not started since.
    Failed,
    /// A device call failed.
    Disk,
    /// The disk stopped within the call.
    Stopped,
    /// What a name stands for was never made.
    Absent,
    /// The call was refused, and changed nothing, but that 33 quarantines the controller.
    Refused {
        number: u8,
        label: Label,
        fields: Fields,
    },
}

impl Drop for Outcome {
    fn drop(self) {
        match self {
            Outcome::Show(_directory) => {}
            Outcome::Vector {
                vector: _vector,
                times: _times,
            } => {}
            Outcome::Marks(_marks) => {}
            Outcome::Meta(_lines) => {}
            Outcome::Refused {
                number: _,
                label: _label,
                fields: _fields,
            } => {}
            Outcome::Ok
            | Outcome::Usn(_)
            | Outcome::Served {
                from: _,
                to: _,
                items: _,
                rows: _,
                last: _,
            }
            | Outcome::Took {
                items: _,
                wrote: _,
                usn: _,
            }
            | Outcome::Removed(_)
            | Outcome::Compared {
                rounds: _,
                directories: _,
                vectors: _,
            }
            | Outcome::More
            | Outcome::Up
            | Outcome::Down
            | Outcome::Failed
            | Outcome::Disk
            | Outcome::Stopped
            | Outcome::Absent => {}
        }
    }
}
