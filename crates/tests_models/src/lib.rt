//! What only calls show of models: tables of names, a number without digits, choices of values past their end.
#![tactic(auto)]

#[cfg(test)]
mod choices;
#[cfg(test)]
mod values;
