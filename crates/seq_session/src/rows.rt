//! What the definitions say of a few logs.

ghost use Rattle.seq_session.specs.Rows.{HostileLog, OtherLogs, RefusalTexts, BlankForms};

/// The log of a script with lines that are skipped, and those of the others; a script that is too long, and a reply
/// without a line; the text of each refusal; what blanking leaves of a log.
pub fn worked_logs()
    ensures hostile { HostileLog }
    ensures others { OtherLogs }
    ensures refusals { RefusalTexts }
    ensures blanked { BlankForms }
{}
