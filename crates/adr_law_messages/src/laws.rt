//! What is sent, in the forms of its bytes.

ghost use Rattle.adr_law_messages.specs.Messages.{AskedHasForm, ReplyIsTaken, ServedHasForm};

/// What a controller asks has the form of a request.
#[tactic(none)]
pub fn asked_requests_have_a_form()
    ensures { AskedHasForm }
{}

/// What a controller answers to a request of the form has the form of a reply.
#[tactic(none)]
pub fn served_replies_have_a_form()
    ensures { ServedHasForm }
{}

/// A reply of the form is in the ranges that taking it asks for.
#[tactic(none)]
pub fn replies_of_a_form_are_in_range()
    ensures { ReplyIsTaken }
{}
