ghost use Rattle.std.specs.Prelude.{◌≡◌, ℕ, ◌+◌, ◌≤◌, List, [], ◌++◌, length, take};
ghost use Rattle.records.specs.Lines.{line_of, answer_text, refusal_text};

use itoa::{Buffer, Integer};
use theory::Refusal;

// How many bytes every line has room for.
const ROOM: usize = 48;

// A printed line: `len` bytes of text, and zeros behind them.
// Tools rely on the 48 bytes with zeros behind the text, so an array stands here with its length beside it.
// A ghost field `len ≤ 48` was tried: then `line_of` lacks a proof of it, so the clauses `room` say it.
#[derive(Clone, Copy)]
pub struct Line {
    pub bytes: [u8; ROOM],
    pub len: usize,
}

// The line of the answer with this ordinal: how many choices belong, and the first ordinal with an equal answer.
pub fn answer_line(ordinal: u16, count: u32, first: u16) -> Line
    ensures text { result ≡ line_of (answer_text ordinal count first) }
    ensures room { result.len ≤ 48 }
{
    Line::new()
        .with_number(ordinal)
        .with_bytes(b" ")
        .with_number(count)
        .with_bytes(b" ")
        .with_number(first)
        .with_bytes(b"\n")
}

// The line of a refusal, by its number, at the place of a record, counted from 1.
pub fn refusal_line<F: Refusal>(fault: F, place: u64) -> Line
    ensures text { result ≡ line_of (refusal_text (F.number fault) place) }
    ensures room { result.len ≤ 48 }
{
    Line::new()
        .with_bytes(b"refused ")
        .with_number(fault.number())
        .with_bytes(b" at ")
        .with_number(place)
        .with_bytes(b"\n")
}

impl Line {
    // The line with no text.
    pub fn new() -> Line
        ensures { result ≡ line_of [] }
    {
        Line {
            bytes: [0; ROOM],
            len: 0,
        }
    }

    // The text, without the zeros behind it.
    pub fn text(&self) -> &[u8]
        ensures { result.now ≡ take self.now.len self.now.bytes }
    {
        &self.bytes[..self.len.min(ROOM)]
    }

    // More bytes behind the text.
    fn with_bytes(mut self, more: &[u8]) -> Line
        requires { self.len + length more.now ≤ 48 }
        ensures len { result.len ≡ self.len + length more.now }
        ensures text { (text : List ℕ) → self ≡ line_of text → result ≡ line_of (text ++ more.now) }
    {
        let start = self.len;
        let end = start + more.len();
        self.bytes[start..end].copy_from_slice(more);
        self.len = end;
        self
    }

    // A number behind the text, in decimal.
    fn with_number<I: Integer>(self, n: I) -> Line
        requires { self.len + I.MAX_STR_LEN ≤ 48 }
        ensures len { result.len ≤ self.len + I.MAX_STR_LEN }
        ensures text { (text : List ℕ) → self ≡ line_of text → result ≡ line_of (text ++ I.text n) }
    {
        self.with_bytes(Buffer::new().format(n).as_bytes())
    }
}
