//! What a client and a server are to each other: laws over the contracts of both.
#![tactic(auto)]

mod laws;

pub use laws::{
    a_conversation_meets_the_premises, answers_are_read, clients_read_what_caches_answer,
    connections_are_served, requests_are_understood, what_is_put_is_got,
};
