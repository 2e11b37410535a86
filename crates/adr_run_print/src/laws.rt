//! The laws of printed lines.

ghost use Rattle.adr_run_print.specs.Printed.{AllowedEventsHaveLines, PrintedEventsAreRead, EventsAreReadAgain};

/// Events are read again from their printed form, and so are those of a text.
pub fn events_are_read_again()
    ensures lines { AllowedEventsHaveLines }
    ensures printed { PrintedEventsAreRead }
    ensures again { EventsAreReadAgain }
{}
