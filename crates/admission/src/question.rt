ghost use Rattle.std.specs.Prelude.{◌≡◌};
ghost use Rattle.admission.specs.Verdict.{number_of};

use thiserror::Error;

/// What admission asks, in this order.
#[derive(Clone, Copy, Debug, PartialEq, Eq, Error)]
pub enum Question {
    #[error("a label of this row, or a member of one of its label, effect or control sets, is not below the policy's number of labels")]
    Labels,
    #[error("the site's label is not in the label set of what the site holds")]
    SiteOwner,
    #[error("a label of what the site holds may not flow to the site's label")]
    SiteFlow,
    #[error("this node does not keep its type rule")]
    TypeRule,
    #[error("this node does not keep its control rule")]
    ControlRule,
    #[error("the entry's root gives no number, or the entry's label is not in the root's control set")]
    EntryRoot,
    #[error("a label of the entry's figure may not flow to the entry's label")]
    EntryFlow,
}

impl Question {
    /// The number that a refusal gives.
    pub fn number(self) -> u8
        ensures { result ≡ number_of self }
    {
        match self {
            Question::Labels => 31,
            Question::SiteOwner => 32,
            Question::SiteFlow => 33,
            Question::TypeRule => 34,
            Question::ControlRule => 35,
            Question::EntryRoot => 36,
            Question::EntryFlow => 37,
        }
    }
}
