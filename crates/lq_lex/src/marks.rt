//! Byte order marks.
ghost use Rattle.std.specs.Prelude.{◌≡◌, ◌≤◌, ◌↔◌, length};
ghost use Rattle.std.specs.Str.{IsUtf8};
ghost use Rattle.lq_grammar.specs.Script.{without_marks};

// A byte order mark, in UTF-8.
const MARK: [u8; 3] = [0xef, 0xbb, 0xbf];

/// The bytes after all byte order marks at their start.
pub fn without_marks(bytes: &[u8]) -> &[u8]
    ensures marks { result.now ≡ without_marks bytes.now }
    ensures no_longer { length result.now ≤ length bytes.now }
    ensures text { IsUtf8 result.now ↔ IsUtf8 bytes.now }
{
    let mut rest = bytes;
    while let Some(tail) = rest.strip_prefix(&MARK) {
        rest = tail;
    }
    rest
}
