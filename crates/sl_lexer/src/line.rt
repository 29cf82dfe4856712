ghost use Rattle.std.specs.Prelude.{◌≡◌, ◌≤◌, not, length};
ghost use Rattle.std.specs.List.{prefix_len};
ghost use Rattle.sl_base.specs.Bytes as bytes;
ghost use Rattle.sl_base.specs.Places.{is_line_feed};

use crate::byte::{is_blank, is_space};

/// How many spaces and tabs stand at the front.
pub fn spaces_len(rest: &[u8]) -> usize
    ensures count { result ≡ prefix_len bytes.is_space rest.now }
    ensures within { result ≤ length rest.now }
{
    for (i, byte) in rest.iter().enumerate() {
        if !is_space(*byte) {
            return i;
        }
    }
    rest.len()
}

/// How many bytes of the line are left.
pub fn line_len(rest: &[u8]) -> usize
    ensures count { result ≡ prefix_len (λ b. not (is_line_feed b)) rest.now }
    ensures within { result ≤ length rest.now }
{
    for (i, byte) in rest.iter().enumerate() {
        if *byte == b'\n' {
            return i;
        }
    }
    rest.len()
}

/// Whether a line's end stands at the front: a line feed, or a carriage return and a line feed.
pub fn begins_line_end(rest: &[u8]) -> bool
    ensures { result ≡ bytes.begins_line_end rest.now }
{
    match rest {
        [b'\n', ..] | [b'\r', b'\n', ..] => true,
        _ => false,
    }
}

/// Whether a backslash directly before a line's end stands at the front.
pub fn begins_joint(rest: &[u8]) -> bool
    ensures { result ≡ bytes.begins_joint rest.now }
{
    match rest {
        [b'\\', behind @ ..] => begins_line_end(behind),
        _ => false,
    }
}

/// Whether nothing but blanks stands behind the last line feed; `blank` says so of the line on which these bytes begin.
pub fn blank_line_after(blank: bool, passed: &[u8]) -> bool
    ensures { result ≡ bytes.blank_line_after blank passed.now }
{
    let mut so_far = blank;
    for byte in passed {
        so_far = *byte == b'\n' || (so_far && is_blank(*byte));
    }
    so_far
}
