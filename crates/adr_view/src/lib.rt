//! What a controller shows of its rows: the live objects under their shown names, each with its
//! values and its links. And what it tells a client that asks for a report: that directory, what the
//! controller has seen, how far it has read its partners, or which write made each row of a GUID.
//!
//! It stands on the rows of `adr_state` and on the entries of `adr_call`, and meets the definitions
//! in `adr_model`. It knows nothing of how rows come to be, of other controllers, or of lines.
#![tactic(auto)]

mod comparing;
mod entries;
mod laws;
mod links;
mod meta;
mod names;
mod reports;
mod seen;
mod shown;
mod slot;
mod values;

pub use adr_call::{Directory, Report};
pub use adr_state::Rows;
pub use adr_values::NoMemory;
pub use comparing::{same_directory, same_vector};
pub use entries::directory;
pub use laws::formed_rows_have_back_links;
pub use reports::report;
pub use seen::{Shown, shown_at};
