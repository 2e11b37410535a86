//! Tests of journals at their concrete types: the bytes of a log on a disk in memory, each of its calls with a crash or a
//! failure within it, with a checkpoint and without one, where areas come to stand, logs that are cut, a log in memory
//! alone, and the limit of logs. The bytes and places were worked out by hand.
#![tactic(auto)]

#[cfg(test)]
mod client;
#[cfg(test)]
mod kept;
#[cfg(test)]
mod logs;
#[cfg(test)]
mod tests;
#[cfg(test)]
mod written;
