ghost use Rattle.std.specs.Prelude.{◌≡◌, ℕ, IfSome, IfNone, map, take};
ghost use Rattle.httparse.specs.Grammar.{ResponseHead};
ghost use Rattle.httparse.specs.Spans.{IsResponseAt, IsResponseWithin, header_bytes};
ghost use Rattle.http_core.specs.ReplyHead.{IsReplyHead, IsResponseOf};
ghost use Rattle.http_core.specs.ReplyHead.{reply_length, reply_of};

use crate::block::{MAX_BLOCK, is_block};
use crate::connection::closes;
use crate::judging::{MAX_FIELDS, MAX_PAIRS, count_pairs};
use crate::rules::{Length, MINOR_OF_HTTP_1_0, body_length, count_named};
use crate::status::NO_CONTENT;
use blob_digest::GREATEST_BLOB;
use httparse::Status;
use httparse::spans::{EMPTY_HEADER_SPAN, HeaderSpan, ResponseSpans, parse_response};

/// What the head of a reply says: its status, how many bytes its body has, and whether the server
/// closes the connection after it.
#[derive(Clone, Copy, Debug, PartialEq, Eq)]
pub struct ReplyHead {
    pub status: u16,
    pub length: u64,
    pub close: bool,
}

/// Where the parts of a reply's head lie.
#[derive(Drop)]
pub(crate) struct ResponseParts {
    pub spans: ResponseSpans,
    pub headers: [HeaderSpan; MAX_FIELDS],
}

/// Reads the head of a reply from its block, if it is valid: of at most 16,384 bytes up to its
/// first empty line, of version 1.1, without `Transfer-Encoding`, with one `Content-Length` of at
/// most 16,777,216; with status 204 it may be absent and is else 0.
pub fn read_reply_head(block: &[u8]) -> Option<ReplyHead>
    ensures some { IfSome result (λ head. IsReplyHead block.now head) }
    ensures none { IfNone result ((head : ReplyHead) → IsReplyHead block.now head → ⊥) }
{
    if block.len() > MAX_BLOCK || !is_block(block) {
        return None;
    }
    if count_pairs(block) > MAX_PAIRS {
        return None;
    }
    let response = read_response(block)?;
    head_in(block, &response.spans, &response.headers)
}

/// The reply head that the whole block is.
fn read_response(block: &[u8]) -> Option<ResponseParts>
    ensures within { IfSome result (λ x. IsResponseWithin block.now x.headers x.spans) }
    ensures head { IfSome result (λ x. (h : ResponseHead) × IsResponseOf block.now h
        × IsResponseAt block.now x.headers x.spans h) }
    ensures none { IfNone result ((h : ResponseHead) → IsResponseOf block.now h → ⊥) }
{
    let mut headers = [EMPTY_HEADER_SPAN; MAX_FIELDS];
    match parse_response(block, &mut headers) {
        Ok(Status::Complete(spans)) if spans.len == block.len() => {
            Some(ResponseParts { spans, headers })
        }
        _ => None,
    }
}

/// What the head says of its reply, if it is valid.
#[tactic(auto, unfolding(crate::specs::ReplyHead::reply_of))]
fn head_in(block: &[u8], spans: &ResponseSpans, headers: &[HeaderSpan]) -> Option<ReplyHead>
    requires { IsResponseWithin block.now headers.now spans.now }
    ensures { result ≡ reply_of spans.now.version spans.now.code
        (map (header_bytes block.now) (take spans.now.headers headers.now)) }
{
    let (fields, _) = headers.split_at(spans.headers);
    if spans.version == MINOR_OF_HTTP_1_0 {
        return None;
    }
    if count_named(block, fields, b"transfer-encoding") > 0 {
        return None;
    }
    let length = reply_length(spans.code, body_length(block, fields))?;
    Some(ReplyHead {
        status: spans.code,
        length,
        close: closes(block, fields),
    })
}

/// The length of the body of a reply with this status, if it is valid.
fn reply_length(status: u16, length: Length) -> Option<u64>
    ensures { result ≡ reply_length status length }
{
    let most = if status == NO_CONTENT {
        0
    } else {
        GREATEST_BLOB as u64
    };
    match length {
        Length::Absent => if status == NO_CONTENT { Some(0) } else { None },
        Length::Bad => None,
        Length::Is(length) => if length > most { None } else { Some(length) },
    }
}
