//! What the answer to a client's line says.

ghost use Rattle.std.specs.Prelude.{◌≡◌, MatchOption, None, Some};
ghost use Rattle.adr_pull.specs.Sending.{accepted_by, accepts, answer_in, verb_in};

use adr_frames::{OUTCOME, has_line_feed};
use adr_token::Line;

/// The first word of a line.
fn verb_in(line: &[u8]) -> &[u8]
    ensures { result.now ≡ verb_in line.now }
{
    match Line::new(line).word() {
        Ok(word) => word,
        Err(_) => &[],
    }
}

/// Whether what stands behind the verb of an answer accepts a line.
fn accepted_by(rest: &[u8]) -> Option<bool>
    ensures { result ≡ accepted_by rest.now }
{
    if rest.starts_with(b": ok") {
        return Some(true);
    }
    if rest.starts_with(b": refused ") {
        return Some(false);
    }
    None
}

/// Whether an answer accepts a line with this verb; none where no answer reads so.
fn accepts(verb: &[u8], answer: &[u8]) -> Option<bool>
    ensures { result ≡ accepts verb.now answer.now }
{
    if has_line_feed(answer) || !answer.starts_with(verb) {
        return None;
    }
    accepted_by(&answer[verb.len()..])
}

/// The answer in a frame that is due behind a line, and whether it accepts the line.
pub(crate) fn answer_in<'a>(line: &[u8], bytes: &'a [u8]) -> Option<(&'a [u8], bool)>
    ensures { MatchOption result (answer_in line.now bytes.now ≡ None) (λ a.
        answer_in line.now bytes.now ≡ Some (a.0.now, a.1)) }
{
    let (kind, answer) = bytes.split_first()?;
    if *kind != OUTCOME {
        return None;
    }
    match accepts(verb_in(line), answer) {
        Some(accepted) => Some((answer, accepted)),
        None => None,
    }
}
