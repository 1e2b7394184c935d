//! Filter rules: which messages a filter lets pass, and how it changes them.
//!
//! `specs/Passing.antt` says what a rule makes of a message, `specs/Laws.antt` what follows for every rule and message.
#![tactic(auto)]

mod chain;
mod kinds;
mod laws;
mod rule;
mod rule_args;
mod voice;

pub use kinds::Kinds;
pub use laws::{
    gives_channel, keeps_kind, masks_are_sets, open_rule_passes_all, passes_messages, worked_rules,
};
pub use rule::Rule;
pub use rule_args::RuleArgs;
pub use voice::{FORMS, VoiceMessage};
