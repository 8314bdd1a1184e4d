//! Trials of sheets whose endings, numbers and steps were worked out by hand.
#![tactic(auto)]

#[cfg(test)]
mod limits;
#[cfg(test)]
mod sheets;
#[cfg(test)]
mod trials;
