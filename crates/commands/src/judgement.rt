use crate::ended::Ended;

/// The line of a verdict, and what it comes to.
#[derive(Drop)]
pub(crate) struct Judgement {
    pub line: String,
    pub ended: Ended,
}
