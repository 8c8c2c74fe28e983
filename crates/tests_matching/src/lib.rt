//! What only calls show of occurrences and reactions: maps that no command makes, walks, decompositions that are joined
//! again, instances, counters near their limit.
#![tactic(auto)]

#[cfg(test)]
mod decompositions;
#[cfg(test)]
mod embeddings;
#[cfg(test)]
mod in_place;
#[cfg(test)]
mod indexed;
#[cfg(test)]
mod models;
#[cfg(test)]
mod reactions;
