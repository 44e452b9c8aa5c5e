use cache_server::{ConnError, Counts};
use log::{Log, info};
use std::net::SocketAddr;

/// What came and went over a connection.
#[derive(Clone, Copy)]
pub(crate) struct Traffic {
    pub(crate) counts: Counts,
    pub(crate) read: u64,
    pub(crate) written: u64,
}

impl Traffic {
    pub(crate) fn none() -> Traffic {
        Traffic {
            counts: Counts::none(),
            read: 0,
            written: 0,
        }
    }
}

/// Tells of a connection that has ended in the log.
pub(crate) fn tell<R: Log>(
    rt: &R,
    number: u64,
    peer: &SocketAddr,
    traffic: &Traffic,
    end: &Result<(), ConnError>,
) {
    let (read, written) = (traffic.read, traffic.written);
    let Counts {
        requests,
        hits,
        misses,
    } = traffic.counts;
    match end {
        Ok(()) => info!(rt;
            "{number} {peer}: {requests} requests, {hits} hits, {misses} misses, {read} bytes in, {written} out, done"
        ),
        Err(e) => info!(rt;
            "{number} {peer}: {requests} requests, {hits} hits, {misses} misses, {read} bytes in, {written} out, {e}"
        ),
    }
}
