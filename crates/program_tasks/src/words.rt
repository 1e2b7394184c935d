//! The words of the command line that name scripts, clients, ports and moments.

ghost use Rattle.std.specs.Prelude.{◌≡◌, ◌≤◌, List, Some, IfSome, IfOk, IfErr, OnOk, length, map, nat_le, ℕ};
ghost use Rattle.std.specs.List.{position_or_len};
ghost use Rattle.std.specs.Option.{option_map};
ghost use Rattle.script_text.specs.Numbers as says;
ghost use Rattle.program_tasks.specs.Words.{port_named, ports_named, IsOfPorts, script_named, scripts_named, with_script, put_at, with_word, seen_script, scripts_seen, IsOfWords, IsOfWord, IsOfScript};

use crate::program_fault::ProgramFault;
use node_table::{ClientId, PortAddr};
use script_text::{client_of, number_of, port_of};
use std::alloc::Global;

/// A script as the command line names it, `CLIENT=PATH`.
#[derive(Clone, Copy, Debug, PartialEq, Eq)]
pub struct ScriptWord<'a> {
    pub client: ClientId,
    pub path: &'a str,
}

/// The moment that a word says, in nanoseconds.
pub fn until_named(word: &str) -> Option<u64>
    ensures { result ≡ says.u64 word.now }
{
    number_of(word.as_bytes())
}

/// The client whose number a word is, 128 to 191.
pub fn client_named(word: &str) -> Option<ClientId>
    ensures { result ≡ says.client_number word.now }
{
    client_of(word.as_bytes())
}

/// The port that a word names, `CLIENT:N`.
pub fn port_named(word: &str) -> Option<PortAddr>
    ensures { result ≡ port_named word.now }
{
    let (client, port) = word.split_once(':')?;
    let client = client_of(client.as_bytes())?;
    let port = port_of(port.as_bytes())?;
    Some(PortAddr { client, port })
}

/// The ports that a word names, one or more, with commas between.
pub fn ports_named<'a>(alloc: Global, word: &'a str) -> Result<Vec<PortAddr>, ProgramFault<'a>>
    ensures ports { IfOk result (λ v. Some v.items ≡ ports_named word.now) }
    ensures refused { IfErr result (IsOfPorts word.now) }
{
    let mut ports = Vec::new(alloc);
    for part in word.split(',') {
        let Some(port) = port_named(part) else {
            return Err(ProgramFault::NotPorts(word));
        };
        ports.push(port)?;
    }
    Ok(ports)
}

impl<'a> ScriptWord<'a> {
    /// The script that a word names. Its path may have further `=`.
    pub fn named(word: &'a str) -> Option<ScriptWord<'a>>
        ensures { option_map seen_script result ≡ script_named word.now }
    {
        let (client, path) = word.split_once('=')?;
        let client = client_of(client.as_bytes())?;
        Some(ScriptWord { client, path })
    }
}

/// The scripts that words name, by client. A fault is that of the first word that has one.
pub fn scripts_named<'a>(
    alloc: Global,
    words: &[&'a str],
) -> Result<Vec<ScriptWord<'a>>, ProgramFault<'a>>
    ensures scripts { IfOk result (λ v.
        Some (scripts_seen v.items) ≡ scripts_named (map (λ w. w.now) words.now)) }
    ensures refused { IfErr result (IsOfWords (map (λ w. w.now) words.now)) }
{
    let mut scripts = Vec::new(alloc);
    for word in words {
        if let Err(fault) = add_word(&mut scripts, word) {
            return Err(fault);
        }
    }
    Ok(scripts)
}

/// Adds the script that a word names.
fn add_word<'a>(scripts: &mut Vec<ScriptWord<'a>>, word: &'a str) -> Result<(), ProgramFault<'a>>
    ensures added { OnOk result (Some (scripts_seen scripts.new.items)
        ≡ with_word word.now (scripts_seen scripts.old.items)) }
    ensures refused { IfErr result (IsOfWord word.now (scripts_seen scripts.old.items)) }
{
    match ScriptWord::named(word) {
        Some(script) => add_script(scripts, script.client, script.path),
        None => Err(ProgramFault::NotAScript(word)),
    }
}

/// Adds a script in its place.
fn add_script<'a>(
    scripts: &mut Vec<ScriptWord<'a>>,
    client: ClientId,
    path: &'a str,
) -> Result<(), ProgramFault<'a>>
    ensures added { OnOk result (Some (scripts_seen scripts.new.items)
        ≡ with_script (client, path.now) (scripts_seen scripts.old.items)) }
    ensures refused { IfErr result
        (IsOfScript (client, path.now) (scripts_seen scripts.old.items)) }
{
    let Some(place) = place_for(scripts.as_slice(), client) else {
        return Err(ProgramFault::TwoScripts(client.number()));
    };
    match scripts.insert(place, ScriptWord { client, path }) {
        Ok(()) => Ok(()),
        Err(_) => Err(ProgramFault::OutOfMemory),
    }
}

/// The place for a client's script, if it has none yet.
fn place_for(scripts: &[ScriptWord<'_>], client: ClientId) -> Option<usize>
    ensures place { (path : List ℕ) → with_script (client, path) (scripts_seen scripts.now)
        ≡ option_map (put_at (client, path) (scripts_seen scripts.now)) result }
    ensures within { IfSome result (λ n. n ≤ length scripts.now) }
{
    let place = first_from(scripts, client);
    match scripts.get(place) {
        Some(there) if there.client == client => None,
        _ => Some(place),
    }
}

/// The place of the first script whose client's number is not less, or their number.
fn first_from(scripts: &[ScriptWord<'_>], client: ClientId) -> usize
    ensures place { result ≡ position_or_len (λ s. nat_le client s.client) scripts.now }
    ensures within { result ≤ length scripts.now }
{
    let mut place = 0;
    while place < scripts.len() && scripts[place].client.number() < client.number() {
        place += 1;
    }
    place
}
