//! What a line that asks for a search says, behind its verb and the name of a controller.

ghost use Rattle.std.specs.Prelude.{◌≡◌};
ghost use Rattle.adr_token.specs.Gives.{Gives};
ghost use Rattle.adr_search.specs.Line.{asking_at, scope_at, scope_of, word_of};

use adr_filter::Scope;
use adr_token::{Bad, Line, Stop};
use adr_values::{Failure, Guid, Text};
use std::alloc::Global;

/// What a search is asked for.
#[derive(Drop)]
pub struct Asking {
    pub base: Guid,
    pub scope: Scope,
    /// A filter, if it is one.
    pub text: Text,
}

/// The word of a scope.
pub fn word_of(scope: Scope) -> &'static str
    ensures { result.now ≡ word_of scope }
{
    match scope {
        Scope::Base => "base",
        Scope::One => "one",
        Scope::Sub => "sub",
    }
}

/// The scope of a word.
pub fn scope_of(word: &[u8]) -> Option<Scope>
    ensures { result ≡ scope_of word.now }
{
    if word == b"base".as_slice() {
        Some(Scope::Base)
    } else if word == b"one".as_slice() {
        Some(Scope::One)
    } else if word == b"sub".as_slice() {
        Some(Scope::Sub)
    } else {
        None
    }
}

/// SCOPE, a word.
#[tactic(auto, unfolding(crate::specs::Line::scope_at))]
fn scope(line: &mut Line<'_>) -> Result<Scope, Stop>
    ensures { Gives result line.new (scope_at line.old) }
{
    match scope_of(line.word()?) {
        Some(scope) => Ok(scope),
        None => Err(Failure::Refused(Bad)),
    }
}

/// ID SCOPE TEXT, from the front of a line.
#[tactic(auto, unfolding(crate::specs::Line::asking_at))]
pub fn read_asking(alloc: Global, line: &mut Line<'_>) -> Result<Asking, Stop>
    ensures { Gives result line.new (asking_at line.old) }
{
    let base = line.identifier()?;
    let scope = scope(line)?;
    line.skip_spaces();
    let text = line.text(alloc)?;
    Ok(Asking { base, scope, text })
}
