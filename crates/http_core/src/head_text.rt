ghost use Rattle.std.specs.Prelude.{◌≡◌, ◌+◌, ◌≤◌, ◌++◌, length};
ghost use Rattle.arrayvec.specs.ArrayVec.{array_vec_len};
ghost use Rattle.http_core.specs.Reply.{allow_line, connection_line, head_text, reason};

use crate::status::{
    BAD_REQUEST, CONFLICT, CONTENT_TOO_LARGE, EXPECTATION_FAILED, HTTP_VERSION_NOT_SUPPORTED,
    INSUFFICIENT_STORAGE, LENGTH_REQUIRED, METHOD_NOT_ALLOWED, NOT_FOUND, NOT_IMPLEMENTED, OK,
    REQUEST_HEADER_FIELDS_TOO_LARGE,
};
use arrayvec::ArrayVec;
use itoa::Buffer;
use std::marker::Model;

/// Room for a head: none has as many bytes.
const ROOM: usize = 256;

/// The text of an answer's head. It lies in the value itself, and takes no memory.
#[derive(Drop)]
pub struct HeadText {
    text: ArrayVec<u8, ROOM>,
}

impl Model for HeadText {
    ghost use Rattle.std.specs.Prelude.{List, ℕ};

    ghost Value = { List ℕ };

    ghost view = { λ h. h.text.items };
}

impl HeadText {
    /// The head of an answer with this many bytes of body, after which the session closes or stays
    /// open.
    pub fn new(status: u16, length: usize, close: bool) -> HeadText
        ensures { result ≡ head_text status length close }
    {
        let mut digits = Buffer::new();
        let mut text = ArrayVec::new();
        push(&mut text, b"HTTP/1.1 ");
        push(&mut text, digits.format(status).as_bytes());
        push(&mut text, b" ");
        push(&mut text, reason_of(status));
        push(&mut text, b"\r\nContent-Length: ");
        push(&mut text, digits.format(length).as_bytes());
        push(&mut text, b"\r\n");
        push(&mut text, allow_of(status));
        push(&mut text, connection_of(close));
        push(&mut text, b"\r\n");
        HeadText { text }
    }

    /// The bytes of the text.
    pub fn as_bytes(&self) -> &[u8]
        ensures { result.now ≡ self.now }
    {
        self.text.as_slice()
    }
}

/// Adds bytes for which there is room.
fn push(text: &mut ArrayVec<u8, ROOM>, bytes: &[u8])
    requires { array_vec_len text.old + length bytes.now ≤ 256 }
    ensures items { text.new.items ≡ text.old.items ++ bytes.now }
    ensures len { array_vec_len text.new ≡ array_vec_len text.old + length bytes.now }
{
    let _fits = text.try_extend_from_slice(bytes);
}

/// The reason phrase of a status.
#[tactic(auto, unfolding(crate::specs::Reply::reason))]
fn reason_of(status: u16) -> &'static [u8]
    ensures text { result.now ≡ reason status }
    ensures short { length result.now ≤ 31 }
{
    match status {
        OK => b"OK",
        BAD_REQUEST => b"Bad Request",
        NOT_FOUND => b"Not Found",
        METHOD_NOT_ALLOWED => b"Method Not Allowed",
        CONFLICT => b"Conflict",
        LENGTH_REQUIRED => b"Length Required",
        CONTENT_TOO_LARGE => b"Content Too Large",
        EXPECTATION_FAILED => b"Expectation Failed",
        REQUEST_HEADER_FIELDS_TOO_LARGE => b"Request Header Fields Too Large",
        NOT_IMPLEMENTED => b"Not Implemented",
        HTTP_VERSION_NOT_SUPPORTED => b"HTTP Version Not Supported",
        INSUFFICIENT_STORAGE => b"Insufficient Storage",
        _ => b"",
    }
}

fn allow_of(status: u16) -> &'static [u8]
    ensures text { result.now ≡ allow_line status }
    ensures short { length result.now ≤ 18 }
{
    if status == METHOD_NOT_ALLOWED {
        b"Allow: GET, PUT\r\n"
    } else {
        b""
    }
}

fn connection_of(close: bool) -> &'static [u8]
    ensures text { result.now ≡ connection_line close }
    ensures short { length result.now ≤ 19 }
{
    if close { b"Connection: close\r\n" } else { b"" }
}
