//! What only calls show of conditions: verdicts on steps, the first class, whether a rule is enabled, the pieces of a host.
#![tactic(auto)]

#[cfg(test)]
mod models;
#[cfg(test)]
mod pieces;
#[cfg(test)]
mod verdicts;
