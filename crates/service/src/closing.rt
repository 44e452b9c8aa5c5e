use std::io::Read;
use std::net::{Shutdown, TcpStream};
use std::time::{Clock, Duration, Instant};

/// The most reads of what still comes after the last answer, of at most 65,536 bytes each.
const LAST_READS: u32 = 1024;

/// How many seconds they last at most, and how many one of them waits.
const LAST_SECONDS: u64 = 10;

const LAST_WAIT: u64 = 2;

/// Ends the writing side, and drops what still comes, for a while: a client that is still sending
/// would lose the last answer to a reset if the stream were closed at once.
pub(crate) fn close<C: Clock>(clock: &C, stream: &TcpStream) {
    let _ended = stream.shutdown(Shutdown::Write);
    let _set = stream.set_read_timeout(Some(Duration::from_secs(LAST_WAIT)));
    let Ok(begun) = Instant::now(clock) else {
        return;
    };
    let mut buffer = [0; 65536];
    let mut rest = stream;
    for _ in 0..LAST_READS {
        match rest.read(&mut buffer) {
            Ok(0) | Err(_) => return,
            Ok(_) => (),
        }
        if is_over(clock, &begun) {
            return;
        }
    }
}

/// Whether the time is over, or can't be told.
fn is_over<C: Clock>(clock: &C, begun: &Instant) -> bool {
    match begun.elapsed(clock) {
        Ok(time) => time >= Duration::from_secs(LAST_SECONDS),
        Err(_) => true,
    }
}
