//! Whether a client says each line of a text.

ghost use Rattle.std.specs.Prelude.{◌≡◌, ◌≤◌, IfOk, is_some, length};
ghost use Rattle.adr_schedule.specs.Lines.{lines_of};
ghost use Rattle.adr_schedule.specs.Limits.{text_limit};
ghost use Rattle.adr_session.specs.Lines.{call_said};
ghost use Rattle.adr_online.specs.Texts.{cause_in, fault_in, first_bad};

use adr_schedule::{Cause, ScheduleFault, TEXT_LIMIT, first_line, is_passed};
use adr_session::{LINE_LIMIT, call_said};
use adr_token::utf8;
use adr_values::NoMemory;
use std::alloc::Global;

/// Whether a line says what a client has a controller do.
fn says_call(alloc: Global, line: &[u8]) -> Result<bool, NoMemory>
    ensures { IfOk result (λ says. says ≡ is_some (call_said line.now)) }
{
    match call_said(alloc, line)? {
        Some(call) => {
            drop(call);
            Ok(true)
        }
        None => Ok(false),
    }
}

/// Why a line can't be sent; none of those that are passed over is.
fn cause_in(alloc: Global, line: &[u8]) -> Result<Option<Cause>, NoMemory>
    ensures { IfOk result (λ cause. cause ≡ cause_in line.now) }
{
    if is_passed(line) {
        return Ok(None);
    }
    if utf8(line).is_none() {
        return Ok(Some(Cause::NotUtf8));
    }
    if line.len() > LINE_LIMIT {
        return Ok(Some(Cause::NoCommand));
    }
    if says_call(alloc, line)? {
        return Ok(None);
    }
    Ok(Some(Cause::NoCommand))
}

/// The first line of a text that can't be sent.
fn first_bad(alloc: Global, text: &[u8]) -> Result<Option<ScheduleFault>, NoMemory>
    requires short { length text.now ≤ text_limit }
    ensures { IfOk result (λ fault. fault ≡ first_bad 1 (lines_of text.now)) }
{
    let mut rest = text;
    let mut number = 1u32;
    'lines: while rest.len() > 0 {
        let (line, after) = first_line(rest);
        if let Some(cause) = cause_in(alloc, line)? {
            return Ok(Some(ScheduleFault {
                line: number,
                cause,
            }));
        }
        rest = after;
        number += 1;
    }
    Ok(None)
}

/// Why a text can't be sent.
pub(crate) fn fault_in(alloc: Global, text: &[u8]) -> Result<Option<ScheduleFault>, NoMemory>
    ensures { IfOk result (λ fault. fault ≡ fault_in text.now) }
{
    if text.len() > TEXT_LIMIT {
        return Ok(Some(ScheduleFault {
            line: 0,
            cause: Cause::TooLong,
        }));
    }
    first_bad(alloc, text)
}
