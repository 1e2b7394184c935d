//! The names of a folder's files.

ghost use Rattle.std.specs.Prelude.{◌≡◌, map, string_bytes, IfOk};
ghost use Rattle.folder_files.specs.Names.{ends_alike, is_in_capitals, is_midi, is_taken, AreInCapitals, AreMidiFiles};

use memory::OutOfMemory;
use std::alloc::Global;

/// The files of a folder, from the names of its entries: those that end in `.mid`, in byte order. Where it is lenient
/// those that end in `.midi` or `.rmi` are among them, and those that end so in capitals.
pub fn midi_files(names: Vec<String>, is_lenient: bool) -> Result<Vec<String>, OutOfMemory>
    ensures { IfOk result (λ files. AreMidiFiles is_lenient
        (map string_bytes names.items) (map string_bytes files.items)) }
{
    let mut files = names;
    files.retain(|name| is_taken(name.as_str(), is_lenient));
    files.sort()?;
    Ok(files)
}

/// The names of a folder's entries that end in `.mid` but for capitals, and so are not among its files, in byte order.
/// Where it is lenient there are none.
pub fn capital_files(
    alloc: Global,
    names: &[String],
    is_lenient: bool,
) -> Result<Vec<String>, OutOfMemory>
    ensures { IfOk result (λ files. AreInCapitals is_lenient
        (map string_bytes names.now) (map string_bytes files.items)) }
{
    let mut capitals = Vec::new(alloc);
    for name in names {
        if is_in_capitals(name.as_str(), is_lenient) {
            capitals.push(String::from_str(alloc, name.as_str())?)?;
        }
    }
    capitals.sort()?;
    Ok(capitals)
}

fn is_midi(name: &str) -> bool
    ensures { result ≡ is_midi name.now }
{
    name.as_bytes().ends_with(b".mid")
}

/// Whether a name ends so, but perhaps for capitals.
fn ends_alike(name: &str, ending: &[u8]) -> bool
    ensures { result ≡ ends_alike ending.now name.now }
{
    let bytes = name.as_bytes();
    let (_, last) = bytes.split_at(bytes.len().saturating_sub(ending.len()));
    last.eq_ignore_ascii_case(ending)
}

/// Whether a file with this name is taken.
fn is_taken(name: &str, is_lenient: bool) -> bool
    ensures { result ≡ is_taken is_lenient name.now }
{
    if is_lenient {
        return ends_alike(name, b".mid") || ends_alike(name, b".midi") || ends_alike(name, b".rmi");
    }
    is_midi(name)
}

/// Whether a name ends in `.mid` but for capitals, and is not taken.
fn is_in_capitals(name: &str, is_lenient: bool) -> bool
    ensures { result ≡ is_in_capitals is_lenient name.now }
{
    ends_alike(name, b".mid") && !is_taken(name, is_lenient)
}
