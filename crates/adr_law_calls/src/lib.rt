//! What calls leave of a controller's state, by the definitions alone.
//!
//! - *Steps* (`puts`, `forms`): rows of one unit are put among the others under one local USN. Nothing is lost of what was
//!   taken, and order, local USNs, forms and closedness stay.
//! - *Logs* (`logs`, `books`, `moves`, `serving`, `issuing`): a log is a list of changes, the newest first, and a mark speaks
//!   of what stood at a USN between two of them. What was true of a book stays true as it grows. What a sound state asks and
//!   answers is sound, and so is a controller that is made of a sound image; a client's write issues its controller's own.
//! - *Kinds of call* (`taking`, `writing`, `collecting`, `upgrading`): each leaves a sound state of a sound one. No item of a
//!   sound reply is broken or incomplete, it shows no rollback, and nothing is written of it that was taken before.
//! - *Formed states* (`called`, `brought`, `tested`, `begun`), with nothing of a sound world, since replies may be forged and
//!   a database may have been put back: a formed state is formed behind each change of a call, and the change can follow it.
//!   A journal reads a record only where its change can follow, so whatever a call commits is read again. It is enough to
//!   look at what a change touches, so that a journal is read in the time of its bytes.
//!
//! Stands on the definitions of `adr_model` and on the laws of knowledge in `adr_law_knowledge`. It looks at one call of one
//! controller: it knows nothing of worlds and their lines, of bytes, of how a change is kept, or of who answers a request.
//! Its functions have no code: each contract is a law.
#![tactic(auto)]

mod begun;
mod books;
mod brought;
mod called;
mod collecting;
mod forms;
mod issuing;
mod logs;
mod moves;
mod puts;
mod serving;
mod taking;
mod tested;
mod upgrading;
mod writing;

pub use begun::{adopted_controllers_are_formed, new_controllers_are_formed};
pub use books::{
    a_change_is_recorded, a_change_leaves_a_sound_state, a_reply_moves_its_mark,
    adopted_images_are_sound, an_incarnation_begins, later_is_an_order, new_controllers_are_sound,
    what_is_sound_stays_sound,
};
pub use brought::{taken_changes_are_of_their_reply, what_stands_stood_or_came};
pub use called::{
    collections_follow, items_may_be_taken, quarantines_follow, served_replies_are_spelled,
    taken_replies_follow, upgrades_follow, writes_follow,
};
pub use collecting::collections_leave_sound_states;
pub use forms::{forms_stay, links_stay_formed};
pub use issuing::writes_issue_their_own;
pub use logs::{
    changes_account_for_rows, later_rows_keep_a_boundary, logs_are_bounded, logs_go_on,
    marks_move_on,
};
pub use moves::moves_keep_what_is_sound;
pub use puts::{order_stays, rows_of_a_unit_are_put};
pub use serving::{
    asked_requests_are_sound, replies_cover_their_ground, served_replies_are_sound,
    sound_requests_show_no_rollback,
};
pub use taking::{
    replies_bring_what_was_lacking, sound_replies_are_whole, taken_replies_leave_sound_states,
};
pub use tested::{changes_are_tested, touched_units_are_enough, writes_are_tested};
pub use upgrading::upgrades_leave_sound_states;
pub use writing::writes_leave_sound_states;
