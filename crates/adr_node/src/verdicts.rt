//! The line of a command that made a controller, or says why it didn't.

ghost use Rattle.std.specs.Prelude.{◌≡◌, IfOk, IfSome, None};
ghost use Rattle.adr_node.specs.Lines.{not_empty_line};
ghost use Rattle.adr_node.specs.Makes.{image_line, made_line, refused_line};

use crate::ended::Refusal;
use crate::lines::{number_line, refusal_line};
use adr_answers::{Heading, line};
use adr_call::{Outcome, Table, Text};
use adr_image::DecodeRefusal;
use adr_outcome::{adopt_refused, full};
use adr_state::LOG_LIMIT;
use adr_token::push;
use adr_values::NoMemory;
use std::alloc::Global;

/// The line of a disk that has bytes.
#[tactic(auto, unfolding(crate::specs::Lines::not_empty_line))]
fn not_empty_line(alloc: Global) -> Result<Vec<u8>, NoMemory>
    ensures { IfOk result (λ bytes. bytes.items ≡ not_empty_line) }
{
    let mut out = Vec::new(alloc);
    push(&mut out, b"refused NotEmpty\n")?;
    Ok(out)
}

#[tactic(auto, unfolding(crate::specs::Lines::malformed_line, crate::specs::Lines::version_line))]
fn image_line(alloc: Global, refusal: DecodeRefusal) -> Result<Vec<u8>, NoMemory>
    ensures { IfOk result (λ bytes. bytes.items ≡ image_line refusal) }
{
    match refusal {
        DecodeRefusal::Malformed { place } => number_line(
            alloc,
            b"refused Malformed place=",
            place,
        ),
        DecodeRefusal::WrongVersion { found } => {
            number_line(alloc, b"refused WrongVersion found=", u64::from(found))
        }
    }
}

/// The line that says why no controller is made.
fn refused_line(alloc: Global, refusal: Refusal) -> Result<Vec<u8>, NoMemory>
    ensures { IfOk result (λ bytes. bytes.items ≡ refused_line refusal) }
{
    match refusal {
        Refusal::NotEmpty => not_empty_line(alloc),
        Refusal::Image(why) => image_line(alloc, why),
        Refusal::Adoption(why) => refusal_line(alloc, &adopt_refused(why)),
        Refusal::Full => refusal_line(alloc, &full(Table::Log, LOG_LIMIT)),
    }
}

/// The answer to a command that made a controller.
fn made_line(alloc: Global, verb: &str, name: &Text) -> Result<Vec<u8>, NoMemory>
    ensures { IfOk result (λ bytes. bytes.items ≡ made_line verb.now name.now) }
{
    let heading = Heading::new(alloc, verb, name)?;
    line(alloc, &heading.of(Outcome::Ok))
}

/// The line of a command that made a controller, or says why not.
pub(crate) fn verdict_line(
    alloc: Global,
    verb: &str,
    name: &Text,
    why: Option<Refusal>,
) -> Result<Vec<u8>, NoMemory>
    ensures made { why ≡ None → IfOk result (λ bytes. bytes.items ≡ made_line verb.now name.now) }
    ensures refused { IfSome why (λ refusal. IfOk result (λ bytes. bytes.items ≡ refused_line refusal)) }
{
    match why {
        None => made_line(alloc, verb, name),
        Some(refusal) => refused_line(alloc, refusal),
    }
}
