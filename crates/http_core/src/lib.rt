//! Requests of HTTP/1.1 cut out of a stream that comes in pieces, and the text of answers; for a
//! client the text of requests, and the heads of replies.
#![tactic(auto)]

mod block;
mod connection;
mod event;
mod fail_stream;
mod head_text;
mod host;
mod judging;
mod laws;
mod method;
mod prefix;
mod reply;
mod reply_head;
mod request;
mod rules;
mod session;
mod status;

pub use block::MAX_BLOCK;
pub use event::{Area, Ask, Event};
pub use fail_stream::FailStream;
pub use head_text::HeadText;
pub use host::Host;
pub use laws::{
    a_request_meets_the_premises, a_stream_is_cut_in_one_way, cuts_go_on, pieces_make_no_difference,
};
pub use prefix::Prefix;
pub use reply::{Content, Reply, write_reply};
pub use reply_head::{ReplyHead, read_reply_head};
pub use request::write_request;
pub use session::Session;
