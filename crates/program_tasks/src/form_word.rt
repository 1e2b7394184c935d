//! How the logs of a run are printed.

ghost use Rattle.std.specs.Prelude.{◌≡◌, IfSome, IfNone};
ghost use Rattle.program_tasks.specs.FormWords.{form_name, IsNoForm};

use log_forms::LogForm;

/// How the logs of a run are printed.
#[derive(Clone, Copy, Debug, PartialEq, Eq)]
pub struct Printing {
    pub form: LogForm,
    /// Whether the listing at the end is printed, too.
    pub listed: bool,
}

/// The form that a word names.
pub fn form_named(word: &str) -> Option<LogForm>
    ensures named { IfSome result (λ form. form_name form ≡ word.now) }
    ensures unknown { IfNone result (IsNoForm word.now) }
{
    match word {
        "text" => Some(LogForm::Text),
        "json" => Some(LogForm::Json),
        "csv" => Some(LogForm::Csv),
        _ => None,
    }
}
