//! What of an answer is written next.
ghost use Rattle.std.specs.Prelude.{◌≡◌, ◌+◌, ◌<◌, ◌≤◌, ◌++◌, length, take, drop, OnOk};
ghost use Rattle.service.specs.Member.{unsent_of};

use cache_server::Answer;
use std::alloc::{AllocError, Global};

/// The most bytes that are written at once, and the most of a body that are gathered with its head.
const AT_ONCE: usize = 262_144;

const GATHERED: usize = 16384;

/// At most so many of the first bytes.
#[tactic(auto, using(crate::proofs::Parts::whole_front))]
fn front_of(bytes: &[u8], most: usize) -> &[u8]
    ensures { result.now ≡ take most bytes.now }
{
    if bytes.len() <= most {
        return bytes;
    }
    let (front, _) = bytes.split_at(most);
    front
}

/// What comes after so many bytes.
#[tactic(auto, using(crate::proofs::Parts::nothing_after))]
fn after(bytes: &[u8], count: usize) -> &[u8]
    ensures { result.now ≡ drop count bytes.now }
{
    if bytes.len() <= count {
        return &[];
    }
    let (_, rest) = bytes.split_at(count);
    rest
}

/// What is written next of a body, of which so many bytes are sent.
pub(crate) fn next_of(body: &[u8], sent: usize) -> &[u8]
    ensures { result.now ≡ take 262144 (drop sent body.now) }
{
    front_of(after(body, sent), AT_ONCE)
}

/// Gathers the rest of the head and the front of the body, so that a short answer goes out at once.
pub(crate) fn gather(
    answer: &Answer<Global>,
    sent: usize,
    gathered: &mut Vec<u8, Global>,
) -> Result<(), AllocError>
    ensures { OnOk result
        (gathered.new.items ≡ drop sent answer.now.head ++ take 16384 answer.now.body) }
{
    gathered.clear();
    gathered.extend_from_slice(after(answer.head(), sent))?;
    gathered.extend_from_slice(front_of(answer.body(), GATHERED))?;
    Ok(())
}

/// How many bytes of the answer are sent once so many more are, of those that weren't.
#[tactic(auto, using(crate::proofs::Sending::sent_within))]
pub(crate) fn sent_with(answer: &Option<Answer<Global>>, sent: usize, count: usize) -> usize
    requires some { 0 < count }
    requires within { count ≤ length (unsent_of answer.now sent) }
    ensures { result ≡ sent + count }
{
    let Some(answer) = answer else {
        return count;
    };
    let _whole = answer.head().len() + answer.body().len();
    sent + count
}
