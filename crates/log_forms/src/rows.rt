//! Lines worked by hand from the definitions.

ghost use Rattle.log_forms.specs.Rows.{WorkedLines, WorkedJson, WorkedCsv, WorkedOthers};

/// What the definitions say of a few lines. The functions do nothing: their contracts are the rows.
pub fn worked_lines()
    ensures { WorkedLines }
{}

pub fn worked_json()
    ensures { WorkedJson }
{}

pub fn worked_csv()
    ensures { WorkedCsv }
{}

#[tactic(auto, unfolding(crate::specs::Forms::csv_line))]
pub fn worked_others()
    ensures { WorkedOthers }
{}
