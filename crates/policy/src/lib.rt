//! Flow policies: which label's data may reach which label.
#![tactic(auto)]

ghost use Rattle.std.specs.Prelude.{◌≡◌, ℕ, ◌<◌, ◌≤◌, Bool, true, false};
ghost use Rattle.policy.specs.Refusals.{number_of, label_answer, new_answer};

pub mod clearances;
pub mod narrowed;
pub mod pair_list;
mod pair_set;
pub mod theorems;

pub use clearances::Clearances;
pub use narrowed::Narrowed;
pub use pair_list::PairList;
use thiserror::Error;

/// Why a policy was not made or not changed.
#[derive(Clone, Copy, PartialEq, Eq, Debug, Error)]
pub enum Refusal {
    /// A label is not below the policy's number of labels.
    #[error("a label of this line is not below the number of labels")]
    UnknownLabel,
    /// A policy has 1 to 32 labels.
    #[error("a policy has 1 to 32 labels")]
    LabelCount,
    /// A label always flows to itself, so that pair is not revoked.
    #[error("every label may flow to itself, and that pair cannot be revoked")]
    ReflexivePair,
    /// All 32 places for revoked pairs are taken.
    #[error("32 pairs are revoked already, and no place is left")]
    RevocationsFull,
}

impl Refusal {
    /// The number that stands for it.
    pub fn number(self) -> u8
        ensures { result ≡ number_of self }
    {
        match self {
            Refusal::UnknownLabel => 51,
            Refusal::LabelCount => 52,
            Refusal::ReflexivePair => 53,
            Refusal::RevocationsFull => 54,
        }
    }
}

// Refuses a number of labels that no policy has.
fn check_count(labels: u32) -> Result<(), Refusal>
    ensures { result ≡ new_answer labels }
{
    if labels < 1 || labels > 32 {
        return Err(Refusal::LabelCount);
    }
    Ok(())
}

// Refuses a label that is not below the number of labels.
fn check_label(label: u32, labels: u32) -> Result<(), Refusal>
    ensures { result ≡ label_answer labels label }
{
    if label >= labels {
        return Err(Refusal::UnknownLabel);
    }
    Ok(())
}

/// A flow relation over labels 0, 1, .. below `size`. Nothing completes it: two pairs imply no third.
pub trait Policy {
    /// How many labels there are.
    ghost size: { Self → ℕ };

    /// Whether the first label may flow to the second.
    ghost flows: { Self → ℕ → ℕ → Bool };

    /// The number of labels.
    fn labels(&self) -> u32
        ensures { result ≡ size self.now };

    /// Whether label a may flow to label b.
    fn may_flow(&self, a: u32, b: u32) -> bool
        ensures { result ≡ flows self.now a b };

    /// There are 1 to 32 labels.
    ghost counted: { (p : Self) → (1 ≤ size p) × (size p ≤ 32) };

    /// Every label flows to itself.
    ghost reflexive: { (p : Self) (a : ℕ) → a < size p → flows p a a ≡ true };

    /// No pair starts at a label that does not exist.
    ghost sources: { (p : Self) (a b : ℕ) → size p ≤ a → flows p a b ≡ false };

    /// No pair ends at a label that does not exist.
    ghost targets: { (p : Self) (a b : ℕ) → size p ≤ b → flows p a b ≡ false };
}
