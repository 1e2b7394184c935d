//! What the definitions say of a few words, lines and scripts.

ghost use Rattle.script_text.specs.Rows.{WordForms, NumberForms, AddressForms, ByteForms, CommandForms, ScriptForms, FaultForms, FaultTexts};

/// What parts lines and words, which words are numbers, addresses, due times and bytes, what lines of commands say, and
/// whole scripts with what is skipped and why.
pub fn worked_scripts()
    ensures words { WordForms }
    ensures numbers { NumberForms }
    ensures addresses { AddressForms }
    ensures bytes { ByteForms }
    ensures commands { CommandForms }
    ensures scripts { ScriptForms }
{}

/// Why lines are unreadable, and how it is printed.
pub fn worked_faults()
    ensures faults { FaultForms }
    ensures texts { FaultTexts }
{}
