//! Whence all comes that a state has: what holds of each row, cursor and mark before a change and of each
//! that it brings holds of each after it.

ghost use Rattle.adr_law_calls.specs.Laws.{RowsStoodOrCame, CursorsStoodOrCame, PurgedStoodOrCame, TimesStoodOrCame, MarksStoodOrCame, PartnersStayRising, TakenIsOfReply};

/// Nothing comes into a state but what the change brings and the own cursor, and partners stay in order.
#[tactic(none)]
pub fn what_stands_stood_or_came()
    ensures rows { RowsStoodOrCame }
    ensures cursors { CursorsStoodOrCame }
    ensures purged { PurgedStoodOrCame }
    ensures times { TimesStoodOrCame }
    ensures marks { MarksStoodOrCame }
    ensures partners { PartnersStayRising }
{}

/// What a taken reply brings is of the reply, under a USN within the limit.
#[tactic(none)]
pub fn taken_changes_are_of_their_reply()
    ensures { TakenIsOfReply }
{}
