//! Scripts of calls over one sheet; answers, and what the channels hold in the end, were worked out by hand.
#![tactic(auto)]

#[cfg(test)]
mod areas;
#[cfg(test)]
mod calls;
#[cfg(test)]
mod play;
