//! Tests of hosts that threads share: their history, the host behind the lock, workers, and runs; of searches in pieces.
#![tactic(auto)]

#[cfg(test)]
mod boards;
#[cfg(test)]
mod histories;
#[cfg(test)]
mod hosts;
#[cfg(test)]
mod meeting;
#[cfg(test)]
mod models;
#[cfg(test)]
mod pieces;
