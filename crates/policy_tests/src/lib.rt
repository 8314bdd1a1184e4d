//! Policies on cases worked out by hand.
#![tactic(auto)]

#[cfg(test)]
mod tests;
