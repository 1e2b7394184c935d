//! Logs and listings in a form.

ghost use Rattle.std.specs.Prelude.{◌≡◌, ◌++◌, OnOk};
ghost use Rattle.std.specs.List.{flat_map};
ghost use Rattle.log_forms.specs.Forms.{log_in, listing_in, head_of, json_line, csv_line};
ghost use Rattle.log_forms.specs.Json.{json_listed};
ghost use Rattle.log_forms.specs.Csv.{csv_listed};
ghost use Rattle.log_forms.specs.Lines.{lines};

use crate::entry::entry_of;
use crate::line::Lines;
use crate::{csv, json};
use itoa::Buffer;
use memory::OutOfMemory;
use node_table::ClientId;

/// How a log is written.
#[derive(Clone, Copy, Debug, PartialEq, Eq)]
pub enum LogForm {
    /// The lines as they are.
    Text,
    /// JSON Lines: an object for each line.
    Json,
    /// A row for each line, below the names of the columns.
    Csv,
}

/// Adds the lines of a client's log as JSON.
#[tactic(auto, unfolding(crate::specs::Forms::json_line))]
fn push_json_log(out: &mut Vec<u8>, client: ClientId, log: &[u8]) -> Result<(), OutOfMemory>
    ensures { OnOk result (out.new.items
        ≡ out.old.items ++ flat_map (json_line client) (lines log.now)) }
{
    let mut digits = Buffer::new();
    let number = digits.format(client.number()).as_bytes();
    let mut lines = Lines::new(log);
    while let Some(line) = lines.next_line() {
        json::push_entry(out, number, &entry_of(line))?;
    }
    Ok(())
}

/// Adds the lines of a client's log as CSV.
#[tactic(auto, unfolding(crate::specs::Forms::csv_line))]
fn push_csv_log(out: &mut Vec<u8>, client: ClientId, log: &[u8]) -> Result<(), OutOfMemory>
    ensures { OnOk result (out.new.items
        ≡ out.old.items ++ flat_map (csv_line client) (lines log.now)) }
{
    let mut digits = Buffer::new();
    let number = digits.format(client.number()).as_bytes();
    let mut lines = Lines::new(log);
    while let Some(line) = lines.next_line() {
        csv::push_entry(out, number, &entry_of(line))?;
    }
    Ok(())
}

fn push_json_listing(out: &mut Vec<u8>, listing: &[u8]) -> Result<(), OutOfMemory>
    ensures { OnOk result (out.new.items
        ≡ out.old.items ++ flat_map json_listed (lines listing.now)) }
{
    let mut lines = Lines::new(listing);
    while let Some(line) = lines.next_line() {
        json::push_listed(out, line)?;
    }
    Ok(())
}

fn push_csv_listing(out: &mut Vec<u8>, listing: &[u8]) -> Result<(), OutOfMemory>
    ensures { OnOk result (out.new.items
        ≡ out.old.items ++ flat_map csv_listed (lines listing.now)) }
{
    let mut lines = Lines::new(listing);
    while let Some(line) = lines.next_line() {
        csv::push_listed(out, line)?;
    }
    Ok(())
}

/// Adds the lines of a client's log in a form.
///
/// A log may be added in pieces of whole lines. A line that no run writes is taken over as that of a listing is. Bytes
/// above 7F go over as they are, so that JSON is UTF-8 where the log is. After an error the text ends within the lines.
pub fn push_log(
    out: &mut Vec<u8>,
    form: LogForm,
    client: ClientId,
    log: &[u8],
) -> Result<(), OutOfMemory>
    ensures { OnOk result (out.new.items ≡ out.old.items ++ log_in form client log.now) }
{
    match form {
        LogForm::Text => {
            out.extend_from_slice(log)?;
            Ok(())
        }
        LogForm::Json => push_json_log(out, client, log),
        LogForm::Csv => push_csv_log(out, client, log),
    }
}

/// Adds the lines of a listing in a form. After an error the text ends within the lines.
pub fn push_listing(out: &mut Vec<u8>, form: LogForm, listing: &[u8]) -> Result<(), OutOfMemory>
    ensures { OnOk result (out.new.items ≡ out.old.items ++ listing_in form listing.now) }
{
    match form {
        LogForm::Text => {
            out.extend_from_slice(listing)?;
            Ok(())
        }
        LogForm::Json => push_json_listing(out, listing),
        LogForm::Csv => push_csv_listing(out, listing),
    }
}

/// Adds what stands before all logs of a file: the names of the columns of CSV, and else nothing.
pub fn push_head(out: &mut Vec<u8>, form: LogForm) -> Result<(), OutOfMemory>
    ensures { OnOk result (out.new.items ≡ out.old.items ++ head_of form) }
{
    match form {
        LogForm::Text | LogForm::Json => Ok(()),
        LogForm::Csv => csv::push_head(out),
    }
}
