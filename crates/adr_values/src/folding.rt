//! Names, folded.

ghost use Rattle.std.specs.Prelude.{◌≡◌, IfOk};
ghost use Rattle.adr_values.specs.Folding.{folded};

use crate::NoMemory;
use crate::text::Text;
use caseless::default_case_fold_str;
use std::alloc::Global;

/// A name in the form in which names are compared: its default case folding (the Unicode Standard,
/// section 3.13), as UTF-8.
pub fn fold_name(alloc: Global, text: &str) -> Result<Text, NoMemory>
    ensures { IfOk result (λ name. name ≡ folded text.now) }
{
    Ok(Text::from_string(default_case_fold_str(alloc, text)?))
}
