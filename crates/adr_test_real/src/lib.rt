//! The adapters over the real system: a file, TCP on this machine, the clock, random identifiers. No clause reaches what these
//! calls do, so each is made here once, and what it does is looked at from outside.
#![tactic(auto)]

#[cfg(test)]
mod files;
#[cfg(test)]
mod given;
#[cfg(test)]
mod lines;
