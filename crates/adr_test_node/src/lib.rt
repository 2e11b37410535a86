//! Tests of what a node does over a network, with connections in memory that come in pieces and are cut anywhere.
#![tactic(auto)]

#[cfg(test)]
mod frames;
