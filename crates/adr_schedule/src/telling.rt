//! The line that tells a fault.

ghost use Rattle.std.specs.Prelude.{◌≡◌, IfOk};
ghost use Rattle.adr_schedule.specs.Telling.{cause_text, fault_line};

use crate::fault::{Cause, ScheduleFault};
use adr_token::{push, push_number};
use std::alloc::{AllocError, Global};

fn cause_text(cause: Cause) -> &'static str
    ensures { result.now ≡ cause_text cause }
{
    match cause {
        Cause::NotUtf8 => "not UTF-8",
        Cause::NoCommand => "no command",
        Cause::UnknownName => "unknown name",
        Cause::NameUsed => "name used",
        Cause::IdentifierUsed => "identifier used",
        Cause::TooMany => "too many",
        Cause::TooLong => "too long",
    }
}

/// The line of a fault.
#[tactic(auto, unfolding(crate::specs::Telling::fault_line))]
pub fn fault_line(alloc: Global, fault: ScheduleFault) -> Result<Vec<u8>, AllocError>
    ensures { IfOk result (λ out. out.items ≡ fault_line fault) }
{
    let mut out = Vec::new(alloc);
    push(&mut out, b"line ")?;
    push_number(&mut out, u64::from(fault.line))?;
    push(&mut out, b": ")?;
    push(&mut out, cause_text(fault.cause).as_bytes())?;
    push(&mut out, b"\n")?;
    Ok(out)
}
