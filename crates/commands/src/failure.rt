ghost use Rattle.std.specs.Prelude.{◌≡◌};
ghost use Rattle.commands.specs.ErrorText.{method_text};
ghost use Rattle.commands.specs.Faults.{kept_failure};

use blob_digest::Digest;
use blob_source::FetchError;
use remote::Fault;

/// What a request asks of a server.
#[derive(Clone, Copy, Debug, PartialEq, Eq)]
pub enum Method {
    GetBlob,
    GetResult,
    PutBlob,
    PutResult,
}

impl Method {
    /// Its words.
    pub(crate) fn text(self) -> &'static str
        ensures { result.now ≡ method_text self }
    {
        match self {
            Method::GetBlob => "get of blob",
            Method::GetResult => "get of result",
            Method::PutBlob => "put of blob",
            Method::PutResult => "put of result",
        }
    }
}

/// A request that failed: what it asked, of which digest, and why it failed.
#[derive(Clone, Copy, Debug)]
pub struct Failure {
    pub method: Method,
    pub digest: Digest,
    pub fault: Fault,
}

/// Keeps the request of a call that failed. Else what is kept stays.
pub(crate) fn keep_failure<T>(
    kept: &mut Option<Failure>,
    method: Method,
    digest: &Digest,
    answer: &Result<T, FetchError>,
    fault: Option<Fault>,
)
    ensures { kept.new ≡ kept_failure kept.old method digest.now answer.now fault }
{
    let Err(refusal) = answer else {
        return;
    };
    match fault {
        Some(fault) if *refusal == FetchError::Failed => {
            *kept = Some(Failure {
                method,
                digest: *digest,
                fault,
            });
        }
        _ => {}
    }
}
