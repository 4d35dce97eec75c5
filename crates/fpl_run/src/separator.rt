//! The line that separates a presentation from its matrices.
ghost use Rattle.std.specs.Prelude.{◌≡◌, ◌≤◌, ◌<◌, ◌↔◌, length, IfSome, IfNone, IsTrue};
ghost use Rattle.fpl_run.specs.Separator.{IsLineAt, IsSeparatorAt, IsFirstSeparator, HasNoSeparator, after_separator, IsTextOf};

use crate::task::Way;

fn is_line_at(bytes: &[u8], at: usize) -> bool
    requires { at ≤ length bytes.now }
    ensures { IsTrue result ↔ IsLineAt bytes.now at }
{
    at == 0 || bytes[at - 1] == b'\n'
}

fn is_separator_at(bytes: &[u8], at: usize) -> bool
    requires { at < length bytes.now }
    ensures { IsTrue result ↔ IsSeparatorAt bytes.now at }
{
    is_line_at(bytes, at)
        && bytes.len() - at >= 2
        && bytes[at] == b'%'
        && bytes[at + 1] == b'%'
        && (bytes.len() - at == 2 || bytes[at + 2] == b'\n')
}

/// Where the first line begins that is exactly `%%`.
pub(crate) fn separator(bytes: &[u8]) -> Option<usize>
    ensures some { IfSome result (IsFirstSeparator bytes.now) }
    ensures none { IfNone result (HasNoSeparator bytes.now) }
{
    for at in 0..bytes.len() {
        if is_separator_at(bytes, at) {
            return Some(at);
        }
    }
    None
}

/// Where the matrices begin after the separating line at a place.
pub(crate) fn after_separator(bytes: &[u8], at: usize) -> usize
    requires { at < length bytes.now }
    ensures value { result ≡ after_separator bytes.now at }
    ensures within { result ≤ length bytes.now }
{
    if bytes.len() - at < 3 {
        return bytes.len();
    }
    at + 3
}

fn text_before(bytes: &[u8]) -> &[u8]
    ensures { IsTextOf Way.Rank bytes.now result.now }
{
    match separator(bytes) {
        Some(at) => &bytes[..at],
        None => bytes,
    }
}

/// What is read as the presentation.
pub(crate) fn text_of(way: Way, bytes: &[u8]) -> &[u8]
    ensures text { IsTextOf way bytes.now result.now }
    ensures short { length result.now ≤ length bytes.now }
{
    match way {
        Way::Rank => text_before(bytes),
        Way::Show(_) | Way::Write | Way::Check | Way::Prove => bytes,
    }
}
