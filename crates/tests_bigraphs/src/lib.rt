//! What only calls show of bigraphs: names and signatures, places, links, refused operations, rules.
#![tactic(auto)]

#[cfg(test)]
mod bigraphs;
#[cfg(test)]
mod links;
#[cfg(test)]
mod made;
#[cfg(test)]
mod operations;
#[cfg(test)]
mod places;
#[cfg(test)]
mod rules;
