//! Tests of the top call, `engine`: bytes and words in, bytes and a status out.
#![tactic(auto)]

#[cfg(test)]
mod failing;
#[cfg(test)]
mod runs;
#[cfg(test)]
mod watchers;
