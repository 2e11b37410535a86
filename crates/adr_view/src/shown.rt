//! Under which names live objects are shown. Of those in one place whose names fold alike the youngest
//! name keeps its text (the form of the others is that of MS-ADTS).

ghost use Rattle.std.specs.Prelude.{◌≡◌, ◌||◌, ◌∷◌, ◌++◌, IfOk, List};
ghost use Rattle.uuid.specs.Text.{hyphenated_text, lower};
ghost use Rattle.adr_model.specs.Place.{Node as Live, place as place_in};
ghost use Rattle.adr_model.specs.Shown.{gives_way, is_lost_name, shown_name};
ghost use Rattle.adr_view.specs.Youngest.{AreYoungest};

use crate::NoMemory;
use crate::names::{Names, gives_way};
use adr_state::Node;
use adr_update::is_lost_name;
use adr_values::{Guid, Text};
use std::alloc::Global;

/// A text with a line feed, a mark and the GUID in lower case behind it (MS-ADTS, naming conflicts and deleted objects;
/// RFC 9562 for the GUID).
pub fn mangled(alloc: Global, text: &Text, mark: &str, guid: Guid) -> Result<Text, NoMemory>
    ensures { IfOk result (λ name. name ≡ text.now ++ 10 ∷ mark.now ++ hyphenated_text lower guid) }
{
    let mut buffer = [0; 36];
    let mut name = String::from_str(alloc, text.as_str())?;
    name.push_str("\n")?;
    name.push_str(mark)?;
    name.push_str(guid.hyphenated(&mut buffer))?;
    Ok(Text::from_string(name))
}

/// Whether another object, or LostAndFound, keeps the text of this one in its place.
fn is_kept_by_another<'a>(names: &Names<'a>, place: Guid, node: &'a Node) -> bool
    ensures { (nodes : List Live) → AreYoungest nodes names.now.map → place ≡ place_in nodes node.now
        → result ≡ (gives_way nodes node.now || is_lost_name (place_in nodes node.now) node.now.text) }
{
    gives_way(names, place, node) || is_lost_name(place, node.name())
}

/// The name under which an object is shown in its place: its text, or where another object there keeps that, the text
/// with a line feed, `CNF:` and the GUID in lower case (MS-ADTS, naming conflicts; RFC 9562 for the GUID).
pub fn shown_name<'a>(
    alloc: Global,
    names: &Names<'a>,
    place: Guid,
    node: &'a Node,
) -> Result<Text, NoMemory>
    ensures { IfOk result (λ name. (nodes : List Live) → AreYoungest nodes names.now.map → place ≡ place_in nodes node.now
        → name ≡ shown_name nodes node.now) }
{
    if is_kept_by_another(names, place, node) {
        mangled(alloc, node.text(), "CNF:", node.object().guid)
    } else {
        Ok(node.text().copy(alloc)?)
    }
}
