//! The verifier over texts: the bytes of a plan and of a record. Its answer is the verdict, or the
//! first fault. The texts are read one after another, each into what the next one needs, so
//! that whoever reads files between them keeps that order: a case is made of digests and a plan,
//! and a source is asked about a case.
#![tactic(auto)]

mod answering;
mod case;
mod error;
mod lack;
mod reading;
mod recalling;

pub use answering::{Answer, answer_question};
pub use case::Case;
pub use error::TextError;
pub use lack::Lack;
pub use reading::{Digests, read_plan};
pub use recalling::{Recalled, recall};
