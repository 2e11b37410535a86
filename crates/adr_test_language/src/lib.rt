//! Tests of the schedule language: lines that say something, and lines that are bad, with their causes.
#![tactic(auto)]

#[cfg(test)]
mod tests;
