//! What only calls show of bytes and texts: sources and sinks, labels and numbers alone, journals that are read, what the
//! words of a command line ask for.
#![tactic(auto)]

#[cfg(test)]
mod journals;
#[cfg(test)]
mod listings;
#[cfg(test)]
mod streams;
#[cfg(test)]
mod words;
