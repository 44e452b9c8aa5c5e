ghost use Rattle.std.specs.Prelude.{◌≡◌, ◌≢◌, ◌↔◌, ◌<◌, ◌+◌, ◌*◌, length, map};
ghost use Rattle.std.specs.Prelude.{MatchOption, IsNone, IfOk, IfErr, IfSome, IsErrOf, Ok, None};
ghost use Rattle.std.specs.List.{AllWithin, HoldsAt};
ghost use Rattle.blob_digest.specs.Digest.{digest_of};
ghost use Rattle.tree.specs.Comparing.{encodings_in, AreOwn};
ghost use Rattle.tree.specs.Difference.{ReadsDirectory, FailsToRead, LeavesOwn, Finds, FindsFirst};
ghost use Rattle.tree.specs.Difference.{made_by, differing, ExplainsDifference};
ghost use Rattle.tree.specs.Folded.{IsFoldOfValid};
ghost use Rattle.tree.specs.Lookup.{names_in};
ghost use Rattle.blob_source.specs.Source.{Asks};
ghost use Rattle.blob_source.specs.Called.{Calls};
ghost use Rattle.tree.specs.LooksAt.{Compares, LooksAtOther};
ghost use Rattle.tree.specs.Memo.{IsKnownOf, WasRefused, Learns, known_by};
ghost use Rattle.tree.specs.TreeError.{Explains};

use crate::difference::{Difference, FirstName, Unlike, first_name};
use crate::error::TreeError;
use crate::folding::Folded;
use crate::memo::Memo;
use crate::unfolding::child_path;
use blob_digest::Digest;
use blob_source::BlobSource;
use messages::{Directory, MessageError, Path};
use std::alloc::{AllocError, Allocator};

/// The Directories that a graft made, and the digest of each.
#[derive(Drop)]
pub(crate) struct OwnDirectories<'a, A: Allocator> {
    pub(crate) encodings: &'a [Vec<u8, A>],
    pub(crate) digests: &'a [Digest],
}

/// The digest of each encoding.
pub(crate) fn digests_of<A: Allocator>(
    alloc: A,
    encodings: &[Vec<u8, A>],
) -> Result<Vec<Digest, A>, AllocError>
    ensures { IfOk result (λ v. v.items ≡ map (λ e. digest_of e.items) encodings.now) }
{
    let mut digests = Vec::new(alloc);
    for encoding in encodings {
        digests.push(Digest::of(encoding))?;
    }
    Ok(digests)
}

/// Where the digest first stands.
pub(crate) fn place_of(digests: &[Digest], digest: &Digest) -> Option<usize>
    ensures { MatchOption result
        (AllWithin (λ d. d ≢ digest.now) digests.now 0 (length digests.now))
        (λ i. (i < length digests.now) × HoldsAt (λ d. d ≡ digest.now) digests.now i
        × AllWithin (λ d. d ≢ digest.now) digests.now 0 i) }
{
    digests.iter().position(|other| other == digest)
}

/// The Directory with a digest: one that the graft made, or else the one that the source tells.
fn read_directory<A: Allocator + Copy, S: BlobSource<A>>(
    alloc: A,
    own: &OwnDirectories<'_, A>,
    digest: &Digest,
    memo: &mut Memo<A>,
    source: &mut S,
) -> Result<Directory<A>, TreeError<A>>
    requires own { AreOwn own.now }
    requires known { IsKnownOf (known_by memo.old) (S.tells source.old) }
    ensures told { IfOk result
        (ReadsDirectory (encodings_in own.now) (S.tells source.new).blobs digest.now) }
    ensures faulty { IfErr result (Explains
        (FailsToRead (encodings_in own.now) (S.tells source.new).blobs digest.now)) }
    ensures called { Calls (Asks 1) (S.tells source.old) (S.tells source.new)
        (IsErrOf result TreeError.Fetch) }
    ensures unasked { LeavesOwn (encodings_in own.now)
        (S.tells source.old).blobs (S.tells source.new).blobs }
    ensures learned { Learns (LooksAtOther (encodings_in own.now) digest.now) (WasRefused result)
        (known_by memo.old) (known_by memo.new) (S.tells source.old) (S.tells source.new) }
{
    let Some(place) = place_of(own.digests, digest) else {
        return memo.message(alloc, source, digest);
    };
    match Directory::decode(alloc, &own.encodings[place]) {
        Ok(directory) => Ok(directory),
        Err(error) => match error {
            MessageError::Memory => Err(TreeError::Memory),
            _ => unreachable!(),
        },
    }
}

/// The first difference below a path, where paths may have `deeper` more names.
fn difference_below<A: Allocator + Copy, S: BlobSource<A>>(
    alloc: A,
    own: &OwnDirectories<'_, A>,
    above: &Option<Path<A>>,
    deeper: usize,
    grafted: &Digest,
    recorded: &Digest,
    memo: &mut Memo<A>,
    source: &mut S,
) -> Result<Difference<A>, TreeError<A>>
    requires own { AreOwn own.now }
    requires known { IsKnownOf (known_by memo.old) (S.tells source.old) }
    requires some { 0 < deeper }
    requires depth { deeper + length (names_in above.now) ≡ 64 }
    requires other { grafted.now ≢ recorded.now }
    ensures found { IfOk result (λ x. Finds (encodings_in own.now) (S.tells source.new).blobs
        deeper (names_in above.now) grafted.now recorded.now (differing x)) }
    ensures refused { IfErr result (ExplainsDifference (Finds (encodings_in own.now)
        (S.tells source.new).blobs deeper (names_in above.now) grafted.now recorded.now)) }
    ensures called { Calls (Asks (2 * deeper)) (S.tells source.old) (S.tells source.new)
        (IsErrOf result TreeError.Fetch) }
    ensures unasked { LeavesOwn (encodings_in own.now)
        (S.tells source.old).blobs (S.tells source.new).blobs }
    ensures learned { Learns (Compares (encodings_in own.now) (S.tells source.new).blobs deeper
        grafted.now recorded.now) (WasRefused result)
        (known_by memo.old) (known_by memo.new) (S.tells source.old) (S.tells source.new) }
{
    let there = read_directory(alloc, own, recorded, memo, source)?;
    let here = read_directory(alloc, own, grafted, memo, source)?;
    let FirstName { name, unlike } = first_name(alloc, &here, &there)?;
    let path = child_path(alloc, above.as_ref(), &name)?;
    match unlike {
        Unlike::OnlyRecorded => Ok(Difference::Unexplained(path)),
        Unlike::OnlyGrafted => Ok(Difference::Absent(path)),
        Unlike::Others => Ok(Difference::Differs(path)),
        Unlike::Directories { grafted, recorded } => {
            if deeper == 1 {
                return Ok(Difference::Differs(path));
            }
            let above = Some(path);
            difference_below(
                alloc,
                own,
                &above,
                deeper - 1,
                &grafted,
                &recorded,
                memo,
                source,
            )
        }
    }
}

/// The first difference of a graft and the directory with a digest, Directory by Directory, names
/// in their order: `None` where the digest is the graft's. The recorded Directory is read before
/// the grafted one; one that the graft made is never fetched, nor one that is kept, and nothing is
/// that isn't compared. Refusals: `BlobMissing`, `BlobWrong` and `BlobMalformed`.
pub fn first_difference<A: Allocator + Copy, S: BlobSource<A>>(
    alloc: A,
    grafted: &Folded<A>,
    recorded: &Digest,
    memo: &mut Memo<A>,
    source: &mut S,
) -> Result<Option<Difference<A>>, TreeError<A>>
    requires valid { IsFoldOfValid grafted.now }
    requires known { IsKnownOf (known_by memo.old) (S.tells source.old) }
    ensures same { IfOk result (λ o. IsNone o ↔ (recorded.now ≡ grafted.now.root)) }
    ensures none { recorded.now ≡ grafted.now.root → result ≡ Ok None }
    ensures found { IfOk result (λ o. IfSome o (λ x. FindsFirst (made_by grafted.now)
        (S.tells source.new).blobs grafted.now.root recorded.now (differing x))) }
    ensures refused { IfErr result (ExplainsDifference (FindsFirst (made_by grafted.now)
        (S.tells source.new).blobs grafted.now.root recorded.now)) }
    ensures called { Calls (Asks 128) (S.tells source.old) (S.tells source.new)
        (IsErrOf result TreeError.Fetch) }
    ensures unasked { recorded.now ≡ grafted.now.root → S.tells source.new ≡ S.tells source.old }
    ensures unasked_own { LeavesOwn (made_by grafted.now)
        (S.tells source.old).blobs (S.tells source.new).blobs }
    ensures learned { Learns (Compares (made_by grafted.now) (S.tells source.new).blobs 64
        grafted.now.root recorded.now) (WasRefused result)
        (known_by memo.old) (known_by memo.new) (S.tells source.old) (S.tells source.new) }
{
    if *recorded == grafted.root {
        return Ok(None);
    }
    let digests = digests_of(alloc, &grafted.directories)?;
    let own = OwnDirectories {
        encodings: &grafted.directories,
        digests: &digests,
    };
    let root = &grafted.root;
    let first = difference_below(alloc, &own, &None, 64, root, recorded, memo, source)?;
    Ok(Some(first))
}
