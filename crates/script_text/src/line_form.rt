//! The forms of the commands: what words follow a command's.

ghost use Rattle.std.specs.Prelude.{◌≡◌, map};
ghost use Rattle.std.specs.Option.{option_map};
ghost use Rattle.script_text.specs.LineFaults as faults;

use crate::command::keyword;
use crate::word_kind::WordKind;

/// What may follow the words of a command that are always there.
#[derive(Clone, Copy, Debug, PartialEq, Eq)]
pub(crate) enum Rest {
    Nothing,
    /// The full bytes of one message.
    Message,
    /// One byte or more.
    Bytes,
    /// The new channel of a filter's rule, or nothing.
    Channel,
}

/// What words follow a command's.
#[derive(Clone, Copy)]
pub(crate) struct LineForm {
    /// The kinds of the words that are always there.
    pub(crate) kinds: &'static [WordKind],
    pub(crate) rest: Rest,
}

/// The forms, in the order of the commands' words.
const FORMS: [LineForm; 27] = [
    LineForm {
        kinds: &[WordKind::Queue, WordKind::NodeNumber, WordKind::Due],
        rest: Rest::Message,
    },
    LineForm {
        kinds: &[WordKind::NodeNumber],
        rest: Rest::Message,
    },
    LineForm {
        kinds: &[WordKind::NodeNumber],
        rest: Rest::Bytes,
    },
    LineForm {
        kinds: &[WordKind::Queue, WordKind::NodeNumber, WordKind::File],
        rest: Rest::Nothing,
    },
    LineForm {
        kinds: &[WordKind::Number32],
        rest: Rest::Nothing,
    },
    LineForm {
        kinds: &[WordKind::Name, WordKind::Number32, WordKind::Number32],
        rest: Rest::Nothing,
    },
    LineForm {
        kinds: &[],
        rest: Rest::Nothing,
    },
    LineForm {
        kinds: &[WordKind::NodeNumber, WordKind::Name, WordKind::Caps],
        rest: Rest::Nothing,
    },
    LineForm {
        kinds: &[WordKind::NodeNumber],
        rest: Rest::Nothing,
    },
    LineForm {
        kinds: &[
            WordKind::NodeNumber,
            WordKind::Caps,
            WordKind::Number16,
            WordKind::Number16,
            WordKind::Number8,
            WordKind::Number8,
            WordKind::Shift,
        ],
        rest: Rest::Channel,
    },
    LineForm {
        kinds: &[
            WordKind::NodeNumber,
            WordKind::Number16,
            WordKind::Number16,
            WordKind::Number8,
            WordKind::Number8,
            WordKind::Shift,
        ],
        rest: Rest::Channel,
    },
    LineForm {
        kinds: &[WordKind::NodeNumber],
        rest: Rest::Nothing,
    },
    LineForm {
        kinds: &[WordKind::Address, WordKind::Address],
        rest: Rest::Nothing,
    },
    LineForm {
        kinds: &[WordKind::Address, WordKind::Address],
        rest: Rest::Nothing,
    },
    LineForm {
        kinds: &[
            WordKind::QueueNumber,
            WordKind::Number32,
            WordKind::Number32,
        ],
        rest: Rest::Nothing,
    },
    LineForm {
        kinds: &[WordKind::QueueNumber, WordKind::File],
        rest: Rest::Nothing,
    },
    LineForm {
        kinds: &[WordKind::Queue],
        rest: Rest::Nothing,
    },
    LineForm {
        kinds: &[WordKind::Queue],
        rest: Rest::Nothing,
    },
    LineForm {
        kinds: &[WordKind::Queue],
        rest: Rest::Nothing,
    },
    LineForm {
        kinds: &[WordKind::Queue],
        rest: Rest::Nothing,
    },
    LineForm {
        kinds: &[WordKind::Queue, WordKind::Number32],
        rest: Rest::Nothing,
    },
    LineForm {
        kinds: &[WordKind::Queue],
        rest: Rest::Nothing,
    },
    LineForm {
        kinds: &[WordKind::Queue],
        rest: Rest::Nothing,
    },
    LineForm {
        kinds: &[],
        rest: Rest::Nothing,
    },
    LineForm {
        kinds: &[],
        rest: Rest::Nothing,
    },
    LineForm {
        kinds: &[],
        rest: Rest::Nothing,
    },
    LineForm {
        kinds: &[],
        rest: Rest::Nothing,
    },
];

/// The form of a command's word.
pub(crate) fn form_of(word: &[u8]) -> Option<LineForm>
    ensures kinds { option_map (λ f. f.kinds.now) result
        ≡ option_map (λ f. f.kinds) (faults.form_of word.now) }
    ensures rest { option_map (λ f. f.rest) result
        ≡ option_map (λ f. f.rest) (faults.form_of word.now) }
{
    form_in(&FORMS, word)
}

/// The form of a command's word, where these are the forms of the commands.
fn form_in(forms: &[LineForm], word: &[u8]) -> Option<LineForm>
    requires kinds { map (λ f. f.kinds.now) forms.now ≡ map (λ f. f.kinds) faults.forms }
    requires rest { map (λ f. f.rest) forms.now ≡ map (λ f. f.rest) faults.forms }
    ensures kinds { option_map (λ f. f.kinds.now) result
        ≡ option_map (λ f. f.kinds) (faults.form_of word.now) }
    ensures rest { option_map (λ f. f.rest) result
        ≡ option_map (λ f. f.rest) (faults.form_of word.now) }
{
    forms.get(keyword(word)).copied()
}
