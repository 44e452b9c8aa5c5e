ghost use Rattle.std.specs.Prelude.{◌<◌};

use blob_digest::Digest;

/// A child that runs.
#[derive(Drop)]
pub(crate) struct Child<J> {
    /// The number of its job.
    pub(crate) id: u64,
    pub(crate) step: usize,
    /// The digest of its action.
    pub(crate) action: Digest,
    pub(crate) job: J,
}
