//! Bytes: their classes, and what stands at the head of a list of them.

ghost use Rattle.std.specs.Prelude.{◌≡◌, ◌+◌, ◌≤◌, ◌∷◌, [], length, drop, MatchOption};
ghost use Rattle.std.specs.List.{prefix_len};
ghost use Rattle.vl_pre.specs.Bytes as b;

/// The first byte and those after it.
pub fn next(bytes: &[u8]) -> Option<(u8, &[u8])>
    ensures { MatchOption result (bytes.now ≡ []) (λ x. bytes.now ≡ x.0 ∷ x.1.now) }
{
    match bytes.split_first() {
        Some((first, rest)) => Some((*first, rest)),
        None => None,
    }
}

/// What stands after the first `n` bytes.
pub fn after(bytes: &[u8], n: usize) -> &[u8]
    requires { n ≤ length bytes.now }
    ensures { result.now ≡ drop n bytes.now }
{
    bytes.split_at(n).1
}

/// Space, tab, LF, FF and CR.
pub fn is_white(byte: u8) -> bool
    ensures { result ≡ b.is_white byte }
{
    byte == 32 || byte == 9 || byte == 10 || byte == 12 || byte == 13
}

/// Tab, LF, FF, CR and 32 to 126.
pub fn is_allowed(byte: u8) -> bool
    ensures { result ≡ b.is_allowed byte }
{
    is_white(byte) || byte >= 32 && byte <= 126
}

/// A digit.
pub fn is_digit(byte: u8) -> bool
    ensures { result ≡ b.is_digit byte }
{
    byte >= b'0' && byte <= b'9'
}

/// A letter or `_`.
pub fn begins_name(byte: u8) -> bool
    ensures { result ≡ b.begins_name byte }
{
    byte >= b'A' && byte <= b'Z' || byte >= b'a' && byte <= b'z' || byte == b'_'
}

fn is_in_name(byte: u8) -> bool
    ensures { result ≡ b.is_in_name byte }
{
    begins_name(byte) || is_digit(byte) || byte == b'$'
}

fn count_in_name(bytes: &[u8]) -> usize
    ensures count { result ≡ prefix_len b.is_in_name bytes.now }
    ensures within { result ≤ length bytes.now }
{
    bytes.iter().take_while(|byte| is_in_name(**byte)).count()
}

/// How many bytes the name at the head has; 0 where none begins there.
pub fn name_length(bytes: &[u8]) -> usize
    ensures count { result ≡ b.name_length bytes.now }
    ensures within { result ≤ length bytes.now }
{
    match next(bytes) {
        Some((first, after)) => name_length_by(first, after),
        None => 0,
    }
}

// The same, by the first byte and those after it.
fn name_length_by(first: u8, after: &[u8]) -> usize
    ensures count { result ≡ b.name_length (first ∷ after.now) }
    ensures within { result ≤ length after.now + 1 }
{
    if begins_name(first) {
        count_in_name(after) + 1
    } else {
        0
    }
}

/// A line's end comes: LF, or CR and LF.
pub fn at_line_end(bytes: &[u8]) -> bool
    ensures { result ≡ b.at_line_end bytes.now }
{
    bytes.starts_with(b"\n") || bytes.starts_with(b"\r\n")
}

/// No more stands on the line: the bytes are over, or a line's end comes.
pub fn ends_line(bytes: &[u8]) -> bool
    ensures { result ≡ b.ends_line bytes.now }
{
    bytes.is_empty() || at_line_end(bytes)
}
