//! What only calls show of occurrences that are kept while a host reacts: each list beside a fresh one, and beside what the other
//! searches find.
#![tactic(auto)]

#[cfg(test)]
mod following;
#[cfg(test)]
mod models;
#[cfg(test)]
mod random;
#[cfg(test)]
mod searches;
#[cfg(test)]
mod window;
#[cfg(test)]
mod worked;
