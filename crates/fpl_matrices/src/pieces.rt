//! Pieces of a text, which stand between blanks, and numbers among them.
ghost use Rattle.std.specs.Prelude.{◌≡◌, ◌≤◌, ◌+◌, ◌-◌, ◌*◌, length, drop, min, Some, None, if◌then◌else◌, IfOk};
ghost use Rattle.std.specs.List.{prefix_len};
ghost use Rattle.fpl_numbers.specs.Results.{map_ok};
ghost use Rattle.fpl_matrices.specs.MapText.{is_blank, is_mark, start_of, end_of, is_spelled, is_number, value_of, read_as, read_word, read_number, capped, Gives};

use crate::fault::MapError;

/// The greatest value that is told apart. It is above every prime and every size.
const MOST: u32 = 65536;

/// Where a piece begins, and where it ends.
#[derive(Clone, Copy)]
struct Piece {
    start: usize,
    end: usize,
}

/// A number, where its piece begins, and the place after it. Its value is 65536 where it is that or more.
#[derive(Clone, Copy)]
pub(crate) struct Number {
    pub(crate) value: u32,
    pub(crate) place: usize,
    pub(crate) next: usize,
}

fn is_blank(b: u8) -> bool
    ensures { result ≡ is_blank b }
{
    b == b'\t' || b == b'\n' || b == b'\r' || b == b' '
}

/// Where the first piece from a place on begins, or the end of the bytes.
pub(crate) fn skip_blanks(bytes: &[u8], at: usize) -> usize
    requires { at ≤ length bytes.now }
    ensures value { result ≡ start_of bytes.now at }
    ensures within { result ≤ length bytes.now }
{
    let mut start = at;
    while start < bytes.len() && is_blank(bytes[start]) {
        start += 1;
    }
    start
}

fn skip_marks(bytes: &[u8], at: usize) -> usize
    requires { at ≤ length bytes.now }
    ensures value { result ≡ at + prefix_len is_mark (drop at bytes.now) }
    ensures within { (at ≤ result) × (result ≤ length bytes.now) }
{
    let mut end = at;
    while end < bytes.len() && !is_blank(bytes[end]) {
        end += 1;
    }
    end
}

fn next_piece(bytes: &[u8], at: usize) -> Piece
    requires { at ≤ length bytes.now }
    ensures start { result.start ≡ start_of bytes.now at }
    ensures end { result.end ≡ end_of bytes.now at }
    ensures within { (result.start ≤ result.end) × (result.end ≤ length bytes.now) }
{
    let start = skip_blanks(bytes, at);
    Piece {
        start,
        end: skip_marks(bytes, start),
    }
}

/// A given word. The result is the place after it.
pub(crate) fn read_word(bytes: &[u8], word: &[u8], at: usize) -> Result<usize, MapError>
    requires { at ≤ length bytes.now }
    ensures value { Gives (λ next. next) result (read_word bytes.now word.now at) }
    ensures within { IfOk result (λ next. next ≤ length bytes.now) }
{
    let piece = next_piece(bytes, at);
    if &bytes[piece.start..piece.end] == word {
        Ok(piece.end)
    } else {
        Err(MapError::Syntax(piece.start as u64))
    }
}

fn with_digit(value: u32, b: u8) -> u32
    requires value { value ≤ 65536 }
    requires digit { (48 ≤ b) × (b ≤ 57) }
    ensures { result ≡ min 65536 (10 * value + (b - 48)) }
{
    (10 * value + u32::from(b - b'0')).min(MOST)
}

// Whether there is something, and no leading zero.
fn is_spelled(text: &[u8]) -> bool
    ensures { result ≡ is_spelled text.now }
{
    text.len() != 0 && (text[0] != b'0' || text.len() == 1)
}

// The value of a decimal number without a leading zero.
fn value_of(text: &[u8]) -> Option<u32>
    ensures { result ≡ (if is_number text.now then Some (min 65536 (value_of text.now)) else None) }
{
    if !is_spelled(text) {
        return None;
    }
    let mut value = 0;
    for b in text {
        if *b < b'0' || *b > b'9' {
            return None;
        }
        value = with_digit(value, *b);
    }
    Some(value)
}

pub(crate) fn read_number(bytes: &[u8], at: usize) -> Result<Number, MapError>
    requires { at ≤ length bytes.now }
    ensures value { Gives (λ x. read_as x.value x.next) result (map_ok capped (read_number bytes.now at)) }
    ensures place { IfOk result (λ x. x.place ≡ start_of bytes.now at) }
    ensures within { IfOk result (λ x. x.next ≤ length bytes.now) }
{
    let piece = next_piece(bytes, at);
    match value_of(&bytes[piece.start..piece.end]) {
        Some(value) => Ok(Number {
            value,
            place: piece.start,
            next: piece.end,
        }),
        None => Err(MapError::Syntax(piece.start as u64)),
    }
}
