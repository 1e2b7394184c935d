//! Names of clients and ports.

ghost use Rattle.std.specs.Prelude.{◌≡◌};
ghost use Rattle.std.specs.List.{list_all};
ghost use Rattle.node_table.specs.Names.{is_name, is_visible, has_length};

/// Whether the bytes may be a name: 1 to 32 bytes, each a visible character of ASCII (21 to 7E hexadecimal).
pub fn is_name(bytes: &[u8]) -> bool
    ensures { result ≡ is_name bytes.now }
{
    has_length(bytes) && are_visible(bytes)
}

fn has_length(bytes: &[u8]) -> bool
    ensures { result ≡ has_length bytes.now }
{
    !bytes.is_empty() && bytes.len() <= 32
}

fn is_visible(byte: u8) -> bool
    ensures { result ≡ is_visible byte }
{
    byte >= 0x21 && byte <= 0x7E
}

fn are_visible(bytes: &[u8]) -> bool
    ensures { result ≡ list_all is_visible bytes.now }
{
    bytes.iter().all(|byte| is_visible(*byte))
}
