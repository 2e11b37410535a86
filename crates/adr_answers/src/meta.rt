//! The lines of what the rows of a GUID tell of themselves.

ghost use Rattle.std.specs.Prelude.{◌≡◌, ◌++◌, OnOk, codes};
ghost use Rattle.std.specs.Fmt.{decimal};
ghost use Rattle.adr_token.specs.Spelling.{attribute_token, identifier_token, text_token};
ghost use Rattle.adr_answers.specs.Line.{life_text, meta_line};

use crate::each::PushText;
use crate::knowledge::{push_identifier_behind, push_number_behind};
use adr_call::{Birth, Life, MetaLine, Stamp, Text};
use adr_token::{push, push_attribute, push_text};
use adr_values::{Guid, NoMemory};

fn life_text(life: Life) -> &'static [u8]
    ensures { result.now ≡ life_text life }
{
    match life {
        Life::Live => b" live".as_slice(),
        Life::Hidden => b" hidden".as_slice(),
        Life::Dead => b" dead".as_slice(),
    }
}

fn push_birth(out: &mut Vec<u8>, inv: Guid, usn: u64) -> Result<(), NoMemory>
    ensures { OnOk result (out.new.items
        ≡ out.old.items ++ (codes " birth=" ++ identifier_token inv ++ codes "/" ++ decimal usn)) }
{
    push_identifier_behind(out, b" birth=", inv)?;
    push_number_behind(out, b"/", usn)
}

fn push_object(out: &mut Vec<u8>, birth: Birth, life: Life, name: &Text) -> Result<(), NoMemory>
    ensures { OnOk result (out.new.items
        ≡ out.old.items
        ++ (codes "  object" ++ (codes " birth=" ++ identifier_token birth.inv ++ codes "/" ++ decimal birth.usn)
        ++ life_text life ++ codes " name=" ++ text_token name.now ++ codes "\n")) }
{
    push(out, b"  object")?;
    push_birth(out, birth.inv, birth.usn)?;
    push(out, life_text(life))?;
    push(out, b" name=")?;
    push_text(out, name.items())?;
    push(out, b"\n")
}

fn push_version(out: &mut Vec<u8>, attr: u16, version: u32) -> Result<(), NoMemory>
    ensures { OnOk result (out.new.items
        ≡ out.old.items ++ (codes "  attr=" ++ attribute_token attr ++ codes " version=" ++ decimal version)) }
{
    push(out, b"  attr=")?;
    push_attribute(out, attr)?;
    push_number_behind(out, b" version=", u64::from(version))
}

fn push_origin(out: &mut Vec<u8>, time: u64, inv: Guid) -> Result<(), NoMemory>
    ensures { OnOk result (out.new.items
        ≡ out.old.items ++ (codes " time=" ++ decimal time ++ codes " inv=" ++ identifier_token inv)) }
{
    push_number_behind(out, b" time=", time)?;
    push_identifier_behind(out, b" inv=", inv)
}

fn push_row(out: &mut Vec<u8>, attr: u16, stamp: Stamp, local: u64) -> Result<(), NoMemory>
    ensures { OnOk result (out.new.items
        ≡ out.old.items
        ++ ((codes "  attr=" ++ attribute_token attr ++ codes " version=" ++ decimal stamp.version)
        ++ (codes " time=" ++ decimal stamp.time ++ codes " inv=" ++ identifier_token stamp.inv)
        ++ codes " usn=" ++ decimal stamp.usn ++ codes " local=" ++ decimal local ++ codes "\n")) }
{
    push_version(out, attr, stamp.version)?;
    push_origin(out, stamp.time, stamp.inv)?;
    push_number_behind(out, b" usn=", stamp.usn)?;
    push_number_behind(out, b" local=", local)?;
    push(out, b"\n")
}

impl PushText for MetaLine {
    ghost text = { meta_line };

    #[tactic(auto, unfolding(crate::specs::Line::meta_line))]
    fn push_to(&self, out: &mut Vec<u8>) -> Result<(), NoMemory> {
        match self {
            MetaLine::Object { birth, life, name } => push_object(out, *birth, *life, name),
            MetaLine::Row { attr, stamp, local } => push_row(out, *attr, *stamp, *local),
        }
    }
}
