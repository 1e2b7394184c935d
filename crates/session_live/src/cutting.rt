//! A text cut at its line feeds.

ghost use Rattle.std.specs.Prelude.{◌≡◌, ◌∷◌, [], IfSome, IfNone};
ghost use Rattle.script_text.specs.Words.{lines};
ghost use Rattle.session_live.specs.Talk.{IsLineEnd};

use memchr::memchr;

/// Where the first line feed stands.
pub(crate) fn line_end(text: &[u8]) -> Option<usize>
    ensures some { IfSome result (λ place. IsLineEnd text.now place) }
    ensures none { IfNone result (lines text.now ≡ text.now ∷ []) }
{
    memchr(b'\n', text)
}
