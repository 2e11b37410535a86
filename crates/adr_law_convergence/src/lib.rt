//! What is proved of every run, over the definitions alone: that every line keeps a world sound, what
//! controllers of a sound world show, which refusals don't come, that a cycle ends, and that rounds of
//! whole cycles bring controllers together.
//!
//! Stands on the definitions of `adr_model`, on the laws of knowledge (`adr_law_knowledge`), and on those of
//! what calls leave of sound and of formed states (`adr_law_calls`). Its functions have no code: each contract
//! is a statement of the definitions' `Convergence`, or of `specs/Rounds`.
#![tactic(auto)]

mod cycles;
mod refused;
mod showing;
mod soundness;
mod whole_rounds;

pub use cycles::cycles_end;
pub use refused::{coverage_stays, no_damage_is_found, no_one_is_too_old};
pub use showing::{
    acknowledged_writes_are_issued, controllers_show_what_is_visible, equal_coverage_shows_equal,
    every_run_converges, times_were_told,
};
pub use soundness::{
    every_line_keeps_worlds_sound, starts_cut_short_keep_worlds_sound, the_empty_world_is_sound,
};
pub use whole_rounds::{
    hearers_have_one_vector, hearers_show_the_same, near_rounds_converge, rings_are_connected,
    rings_tell_true, rounds_converge, rounds_reach, rounds_settle, runs_come_together,
};
