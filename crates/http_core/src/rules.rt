ghost use Rattle.std.specs.Prelude.{true, false, ◌≡◌, ℕ, ◌≤◌, ◌<◌, ◌++◌, List, length, take, All};
ghost use Rattle.std.specs.Prelude.{count_by, map, IfSome, IfNone, IfOk, IfErr, OnOk, OnErr};
ghost use Rattle.std.specs.Char.{is_ascii_digit};
ghost use Rattle.std.specs.List.{list_all};
ghost use Rattle.httparse.specs.Grammar.{RequestHead};
ghost use Rattle.httparse.specs.Spans.{IsHeaderWithin, IsRequestAt, IsRequestWithin, header_bytes};
ghost use Rattle.blob_digest.specs.DigestValue.{IsHash};
ghost use Rattle.http_core.specs.Names.{same_name};
ghost use Rattle.http_core.specs.Rules.{count_of, length_of, read_length, is_length, is_bad};
ghost use Rattle.http_core.specs.Rules.{is_absent, body_size, refused_status, area_text};
ghost use Rattle.http_core.specs.Rules.{target_text, is_put};
ghost use Rattle.http_core.specs.Method.{is_put_method};
ghost use Rattle.http_core.specs.Rules.{Names, Targets, JudgesHead};

use crate::connection::closes;
use crate::event::Area;
use crate::judging::Judgement;
use crate::method::Method;
use crate::status::{
    BAD_REQUEST, CONTENT_TOO_LARGE, EXPECTATION_FAILED, HTTP_VERSION_NOT_SUPPORTED,
    LENGTH_REQUIRED, METHOD_NOT_ALLOWED, NOT_FOUND, NOT_IMPLEMENTED,
};
use blob_digest::{GREATEST_BLOB, read_hash};
use httparse::spans::{HeaderSpan, RequestSpans};

/// The minor version of HTTP/1.0, which the server and the client refuse.
pub(crate) const MINOR_OF_HTTP_1_0: u8 = 0;

/// The most digits that a length may have.
const MAX_DIGITS: usize = 19;

/// What the fields say of the body's length.
#[derive(Clone, Copy, Debug, PartialEq, Eq)]
pub(crate) enum Length {
    Absent,
    Bad,
    Is(u64),
}

impl Length {
    fn is_bad(self) -> bool
        ensures { result ≡ is_bad self }
    {
        matches!(self, Length::Bad)
    }

    fn is_absent(self) -> bool
        ensures { result ≡ is_absent self }
    {
        matches!(self, Length::Absent)
    }

    fn size(self) -> u64
        ensures { result ≡ body_size self }
    {
        match self {
            Length::Is(size) => size,
            _ => 0,
        }
    }
}

/// Whether the field has this name, in any case.
pub(crate) fn is_named(block: &[u8], header: &HeaderSpan, name: &[u8]) -> bool
    requires { IsHeaderWithin (length block.now) header.now }
    ensures { result ≡ same_name (header_bytes block.now header.now).0 name.now }
{
    header.name.of(block).eq_ignore_ascii_case(name)
}

/// How many fields have this name, in any case.
pub(crate) fn count_named(block: &[u8], headers: &[HeaderSpan], name: &[u8]) -> usize
    requires { All (IsHeaderWithin (length block.now)) headers.now }
    ensures { result ≡ count_of name.now (map (header_bytes block.now) headers.now) }
{
    let mut count = 0;
    for header in headers {
        if is_named(block, header, name) {
            count += 1;
        }
    }
    count
}

fn are_digits(text: &[u8]) -> bool
    ensures { result ≡ list_all is_ascii_digit text.now }
{
    text.iter().all(u8::is_ascii_digit)
}

fn is_length(text: &[u8]) -> bool
    ensures { result ≡ is_length text.now }
{
    !text.is_empty() && text.len() <= MAX_DIGITS && are_digits(text)
}

/// Reads a length: 1 to 19 decimal digits.
#[tactic(auto, unfolding(crate::specs::Rules::read_length))]
fn length_in(text: &[u8]) -> Length
    ensures { result ≡ read_length text.now }
{
    if !is_length(text) {
        return Length::Bad;
    }
    let Ok(digits) = str::from_utf8(text) else {
        return Length::Bad;
    };
    match digits.parse::<u64>() {
        Ok(length) => Length::Is(length),
        Err(_) => Length::Bad,
    }
}

/// What the fields say of the body's length.
#[tactic(auto, using(crate::proofs::Fields::length_from_absent))]
pub(crate) fn body_length(block: &[u8], headers: &[HeaderSpan]) -> Length
    requires { All (IsHeaderWithin (length block.now)) headers.now }
    ensures { result ≡ length_of (map (header_bytes block.now) headers.now) }
{
    let mut found = Length::Absent;
    for header in headers {
        if is_named(block, header, b"content-length") {
            found = match found {
                Length::Absent => length_in(header.value.of(block)),
                _ => Length::Bad,
            };
        }
    }
    found
}

/// The status, as an error, where the rule applies.
fn refuse_if(applies: bool, status: u16) -> Result<(), u16>
    ensures ok { OnOk result (applies ≡ false) }
    ensures err { OnErr result (applies ≡ true) }
    ensures status { IfErr result (λ told. told ≡ status) }
{
    if applies { Err(status) } else { Ok(()) }
}

/// The method of a head that no rule refuses, but perhaps its target's; or else the status of the
/// first rule that applies.
#[tactic(auto, unfolding(crate::specs::Rules::refused_status))]
fn method_in(
    minor: u8,
    name: &[u8],
    body: Length,
    block: &[u8],
    headers: &[HeaderSpan],
) -> Result<Method, u16>
    requires within { All (IsHeaderWithin (length block.now)) headers.now }
    requires body { body ≡ length_of (map (header_bytes block.now) headers.now) }
    ensures ok { OnOk result
        (refused_status minor name.now (map (header_bytes block.now) headers.now) ≡ None) }
    ensures method { IfOk result (λ method. is_put name.now ≡ is_put_method method) }
    ensures err { IfErr result (λ status.
        refused_status minor name.now (map (header_bytes block.now) headers.now) ≡ Some status) }
{
    refuse_if(minor == MINOR_OF_HTTP_1_0, HTTP_VERSION_NOT_SUPPORTED)?;
    refuse_if(count_named(block, headers, b"host") != 1, BAD_REQUEST)?;
    refuse_if(
        count_named(block, headers, b"transfer-encoding") > 0,
        NOT_IMPLEMENTED,
    )?;
    refuse_if(body.is_bad(), BAD_REQUEST)?;
    refuse_if(
        count_named(block, headers, b"expect") > 0,
        EXPECTATION_FAILED,
    )?;
    let method = Method::read(name).ok_or(METHOD_NOT_ALLOWED)?;
    refuse_if(method.is_put() && body.is_absent(), LENGTH_REQUIRED)?;
    refuse_if(body.size() > GREATEST_BLOB as u64, CONTENT_TOO_LARGE)?;
    refuse_if(!method.is_put() && body.size() > 0, BAD_REQUEST)?;
    Ok(method)
}

/// What follows the front.
fn strip<'a>(front: &[u8], bytes: &'a [u8]) -> Option<&'a [u8]>
    ensures found { IfSome result (λ rest. bytes.now ≡ front.now ++ rest.now) }
    ensures none { IfNone result ((rest : List ℕ) → bytes.now ≡ front.now ++ rest → ⊥) }
{
    bytes.strip_prefix(front)
}

pub(crate) fn text_of(area: Area) -> &'static [u8]
    ensures { result.now ≡ area_text area }
{
    match area {
        Area::Ac => b"/ac/",
        Area::Cas => b"/cas/",
        Area::Pin => b"/pin/",
        Area::Unpin => b"/unpin/",
    }
}

/// The hash that the target names in the area.
fn hash_in(prefix: &[u8], area: Area, target: &[u8]) -> Option<[u8; 32]>
    ensures found { IfSome result
        (λ hash. IsHash hash × (target.now ≡ target_text prefix.now area hash)) }
    ensures none { IfNone result
        ((hash : List ℕ) → IsHash hash → target.now ≡ target_text prefix.now area hash → ⊥) }
{
    let rest = strip(prefix, target)?;
    read_hash(strip(text_of(area), rest)?)
}

/// The area and the hash that the target names, if such a request may name the area.
fn named(prefix: &[u8], method: Method, target: &[u8]) -> Option<(Area, [u8; 32])>
    ensures found { IfSome result
        (λ x. Names prefix.now (is_put_method method) target.now x.0 x.1) }
    ensures none { IfNone result ((area : Area) (hash : List ℕ)
        → Names prefix.now (is_put_method method) target.now area hash → ⊥) }
{
    if let Some(hash) = hash_in(prefix, Area::Ac, target) {
        return Some((Area::Ac, hash));
    }
    if let Some(hash) = hash_in(prefix, Area::Cas, target) {
        return Some((Area::Cas, hash));
    }
    if !method.is_put() {
        return None;
    }
    if let Some(hash) = hash_in(prefix, Area::Pin, target) {
        return Some((Area::Pin, hash));
    }
    let hash = hash_in(prefix, Area::Unpin, target)?;
    Some((Area::Unpin, hash))
}

/// Judges the target of a request whose body has this many bytes.
fn judge_target(
    prefix: &[u8],
    method: Method,
    target: &[u8],
    length: usize,
    close: bool,
) -> Judgement
    ensures { Targets prefix.now (is_put_method method) close target.now length result }
{
    let Some(found) = named(prefix, method, target) else {
        return Judgement::Refuse {
            status: NOT_FOUND,
            close: method.is_put() || close,
        };
    };
    let (area, hash) = found;
    match method {
        Method::Get => Judgement::Get { area, hash, close },
        Method::Put => Judgement::Put {
            area,
            hash,
            length,
            close,
        },
    }
}

/// Judges a head by its parts, which lie there in the block.
pub(crate) fn judge_head(
    prefix: &[u8],
    block: &[u8],
    spans: &RequestSpans,
    headers: &[HeaderSpan],
) -> Judgement
    requires { IsRequestWithin block.now headers.now spans.now }
    ensures { (h : RequestHead) → IsRequestAt block.now headers.now spans.now h
        → JudgesHead prefix.now h result }
{
    let (fields, _) = headers.split_at(spans.headers);
    let name = spans.method.of(block);
    let target = spans.path.of(block);
    let body = body_length(block, fields);
    match method_in(spans.version, name, body, block, fields) {
        Err(status) => Judgement::Refuse {
            status,
            close: true,
        },
        Ok(method) => {
            let close = closes(block, fields);
            judge_target(prefix, method, target, body.size() as usize, close)
        }
    }
}
