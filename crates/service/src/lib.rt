//! The cache over sockets: the connections of a listener are served one after another, or many at a
//! time in one thread. None of them may be silent for too long, and each is told of in the log when
//! it has ended.
#![tactic(auto)]

mod accepted;
mod closing;
mod desk;
mod door;
mod ending;
mod epoll;
mod error;
mod lingering;
mod listening;
mod load;
mod member;
mod metered;
mod part;
mod queue;
mod round;
mod serving;
mod silence;
mod sockets;
mod status;
mod telling;
mod timer;
mod together;
mod turn;
mod watched;

pub use accepted::{Accepted, Streams};
pub use epoll::SystemSockets;
pub use error::NotAccepted;
pub use listening::{Listener, SystemListener};
pub use serving::{serve, serve_listener};
pub use sockets::{Peer, Ready, Sockets};
pub use status::ErrorTerminal;
pub use together::{serve_sockets, serve_together};
