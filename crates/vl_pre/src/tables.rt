//! Tables of words.

ghost use Rattle.std.specs.Prelude.{◌≡◌};
ghost use Rattle.vl_pre.specs.Tables.{entry, pairs};

/// What the first of these entries under the word stands for.
pub fn find<T: Copy>(entries: &[(&[u8], T)], word: &[u8]) -> Option<T>
    ensures { result ≡ entry (pairs entries.now) word.now }
{
    for entry in entries {
        if entry.0 == word {
            return Some(entry.1);
        }
    }
    None
}
