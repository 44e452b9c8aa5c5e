ghost use Rattle.std.specs.Prelude.{◌≡◌, IfOk, IfErr, IsErrOf, IsNone, Ok, length, option_copied};
ghost use Rattle.blob_source.specs.Source.{Asks};
ghost use Rattle.blob_source.specs.Called.{Calls};
ghost use Rattle.tree.specs.Form.{node_value};
ghost use Rattle.tree.specs.Lookup.{Looks, found, looked, names_in};
ghost use Rattle.tree.specs.LooksAt.{OnWay};
ghost use Rattle.tree.specs.Memo.{AsksNoOther};
ghost use Rattle.tree.specs.TreeError.{ExplainsLookup};

use crate::error::TreeError;
use crate::fetching::fetch_message;
use blob_digest::Digest;
use blob_source::BlobSource;
use messages::{Directory, Name, Node, Path};
use std::alloc::Allocator;

/// The node at a path below the directory with a digest, Directory by Directory. No path is that
/// directory itself, and nothing is fetched. A link isn't followed, and a file's bytes are never
/// read. Refusals: `Absent`, `BlobMissing`, `BlobWrong` and `BlobMalformed`.
pub fn lookup<A: Allocator + Copy, S: BlobSource<A>>(
    alloc: A,
    root: &Digest,
    path: Option<&Path<A>>,
    source: &mut S,
) -> Result<Node<A>, TreeError<A>>
    // The node that is there, or why there is none.
    ensures found { IfOk result (λ x. Looks (S.tells source.new).blobs root.now
        (names_in (option_copied path.entry)) (found (node_value x))) }
    ensures refused { IfErr result (ExplainsLookup (S.tells source.new).blobs root.now
        (names_in (option_copied path.entry))) }
    // The root itself takes no memory.
    ensures root { IsNone path.entry → result ≡ Ok (Node.Dir root.now) }
    ensures called { Calls (Asks (length (names_in (option_copied path.entry))))
        (S.tells source.old) (S.tells source.new) (IsErrOf result TreeError.Fetch) }
    // Nothing is asked for but the Directories on the way.
    ensures only { AsksNoOther (OnWay (S.tells source.new).blobs root.now
        (names_in (option_copied path.entry)))
        (S.tells source.old) (S.tells source.new) }
{
    match path {
        None => Ok(Node::Dir(*root)),
        Some(path) => look_up(alloc, root, path, source),
    }
}

/// The node at a path of one name or more.
fn look_up<A: Allocator + Copy, S: BlobSource<A>>(
    alloc: A,
    root: &Digest,
    path: &Path<A>,
    source: &mut S,
) -> Result<Node<A>, TreeError<A>>
    ensures found { IfOk result (λ x. Looks (S.tells source.new).blobs root.now path.now
        (found (node_value x))) }
    ensures refused { IfErr result
        (ExplainsLookup (S.tells source.new).blobs root.now path.now) }
    ensures called { Calls (Asks (length path.now)) (S.tells source.old) (S.tells source.new)
        (IsErrOf result TreeError.Fetch) }
    ensures only { AsksNoOther (OnWay (S.tells source.new).blobs root.now path.now)
        (S.tells source.old) (S.tells source.new) }
{
    let names = path.to_names(alloc)?;
    match descend(alloc, root, &names, source)? {
        Some(node) => Ok(node),
        None => Err(TreeError::Absent(Path::copy_of(alloc, path)?)),
    }
}

/// The node at the end of the names, if there is one.
fn descend<A: Allocator + Copy, S: BlobSource<A>>(
    alloc: A,
    root: &Digest,
    names: &[Name<A>],
    source: &mut S,
) -> Result<Option<Node<A>>, TreeError<A>>
    ensures found { IfOk result (λ o. Looks (S.tells source.new).blobs root.now names.now
        (looked o)) }
    ensures refused { IfErr result
        (ExplainsLookup (S.tells source.new).blobs root.now names.now) }
    ensures called { Calls (Asks (length names.now)) (S.tells source.old) (S.tells source.new)
        (IsErrOf result TreeError.Fetch) }
    ensures only { AsksNoOther (OnWay (S.tells source.new).blobs root.now names.now)
        (S.tells source.old) (S.tells source.new) }
{
    let mut node = Node::Dir(*root);
    for name in names {
        let Node::Dir(digest) = node else {
            return Ok(None);
        };
        let directory: Directory<A> = fetch_message(alloc, source, &digest)?;
        match directory.child(alloc, name.as_bytes())? {
            Some(next) => node = next,
            None => return Ok(None),
        }
    }
    Ok(Some(node))
}
