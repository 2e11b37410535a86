//! What stands at the head of an answer.

ghost use Rattle.std.specs.Prelude.{◌≡◌, IfOk};
ghost use Rattle.adr_call.specs.Verbs.{name_of};
ghost use Rattle.adr_answers.specs.Alone.{HasOneAnswer};

use adr_call::{Answer, Event, Outcome};
use adr_values::{NoMemory, Text};
use std::alloc::Global;

/// What stands before an outcome: the word of a call, and a controller's name.
#[derive(Drop)]
pub struct Heading {
    pub verb: Text,
    pub name: Text,
}

impl Heading {
    /// The heading of a call. Whoever changes something makes it first: then nothing fails behind the change.
    pub fn new(alloc: Global, verb: &str, name: &Text) -> Result<Heading, NoMemory>
        ensures { IfOk result (λ made. (made.verb ≡ verb.now) × (made.name ≡ name.now)) }
    {
        Ok(Heading {
            verb: Text::from_str(alloc, verb)?,
            name: name.copy(alloc)?,
        })
    }

    /// The answer of this outcome.
    pub fn of(self, outcome: Outcome) -> Answer
        ensures { result ≡ record { verb = self.verb; name = self.name; outcome = outcome } }
    {
        Answer {
            verb: self.verb,
            name: self.name,
            outcome,
        }
    }
}

/// The name of the controller that a line goes to.
pub fn name_of(event: &Event) -> &Text
    requires { HasOneAnswer event.now }
    ensures { result.now ≡ name_of event.now }
{
    match event {
        Event::Comes { name, .. } => name,
        Event::Calls { name, .. } => name,
        Event::Uses { name, .. } => name,
        Event::Binds { name, .. } => name,
        Event::Asks { name, .. } => name,
        Event::Goes { name, .. } => name,
        Event::Meets { name, .. } => name,
        Event::Time { .. } => unreachable!(),
    }
}
