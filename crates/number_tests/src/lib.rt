//! Tests of the number kinds and of the bounded stack, over tables written by hand.
#![tactic(auto)]

#[cfg(test)]
mod metres;
#[cfg(test)]
mod millimetres;
#[cfg(test)]
mod stacks;
