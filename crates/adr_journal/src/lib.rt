//! What keeps a controller's state beyond a crash: a log of gated records on a disk, of which a start finds the state
//! before a change or after it, whatever the crash. Where the records have become long, a commit first writes a new area
//! with the state's image beside the live one, and selects it.
//!
//! It stands on the disks of `adr_disk`, on the state of `adr_state` and on the laws of `adr_law_journal`. The bytes of a
//! state and of a change are those of a form that it takes as a parameter. It knows nothing of why a change is made.
#![tactic(auto)]

mod checkpoint;
mod committing;
mod form;
mod formatting;
mod journal;
mod keeper;
mod layout;
mod reading;
mod recording;
mod replaying;

pub use committing::spell;
pub use form::{AreaRead, FollowRefusal, Form, Owner};
pub use formatting::new_log;
pub use journal::Journal;
pub use keeper::{Keeper, KeeperRefusal, StartRefusal};
pub use layout::OPEN_GATE;
pub use replaying::replay;
