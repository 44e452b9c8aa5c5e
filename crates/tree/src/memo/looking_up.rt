ghost use Rattle.std.specs.Prelude.{◌≡◌, IfOk, IfErr, IsErrOf, IsNone, Ok, length, option_copied};
ghost use Rattle.blob_source.specs.Source.{Asks};
ghost use Rattle.blob_source.specs.Called.{Calls};
ghost use Rattle.tree.specs.Form.{node_value};
ghost use Rattle.tree.specs.Lookup.{Looks, found, looked, names_in};
ghost use Rattle.tree.specs.LooksAt.{OnWay};
ghost use Rattle.tree.specs.Memo.{AsksNoOther, IsKnownOf, Learns, known_by};
ghost use Rattle.tree.specs.TreeError.{ExplainsLookup, IsCutShort};

use super::Memo;
use crate::error::TreeError;
use blob_digest::Digest;
use blob_source::BlobSource;
use messages::{Name, Node, Path};
use std::alloc::Allocator;

impl<A: Allocator + Copy> Memo<A> {
    /// The node at a path below the directory with a digest, as `lookup` answers it. A Directory on
    /// the way is read once, and kept, also where nothing is at the path. Refusals: `Absent`,
    /// `BlobMissing`, `BlobWrong` and `BlobMalformed`.
    #[tactic(auto, using(crate::proofs::Learning::learns_none))]
    pub fn lookup<S: BlobSource<A>>(
        &mut self,
        alloc: A,
        root: &Digest,
        path: Option<&Path<A>>,
        source: &mut S,
    ) -> Result<Node<A>, TreeError<A>>
        requires { IsKnownOf (known_by self.old) (S.tells source.old) }
        ensures found { IfOk result (λ x. Looks (S.tells source.new).blobs root.now
            (names_in (option_copied path.entry)) (found (node_value x))) }
        ensures refused { IfErr result (ExplainsLookup (S.tells source.new).blobs root.now
            (names_in (option_copied path.entry))) }
        // The root itself takes no memory.
        ensures root { IsNone path.entry → result ≡ Ok (Node.Dir root.now) }
        ensures called { Calls (Asks (length (names_in (option_copied path.entry))))
            (S.tells source.old) (S.tells source.new) (IsErrOf result TreeError.Fetch) }
        // Nothing is asked for but the Directories on the way.
        ensures only { AsksNoOther (OnWay (S.tells source.new).blobs root.now
            (names_in (option_copied path.entry)))
            (S.tells source.old) (S.tells source.new) }
        ensures learned { Learns (OnWay (S.tells source.new).blobs root.now
            (names_in (option_copied path.entry))) (IsCutShort result)
            (known_by self.old) (known_by self.new) (S.tells source.old) (S.tells source.new) }
    {
        match path {
            None => Ok(Node::Dir(*root)),
            Some(path) => self.look_up(alloc, root, path, source),
        }
    }

    /// The node at a path of one name or more.
    fn look_up<S: BlobSource<A>>(
        &mut self,
        alloc: A,
        root: &Digest,
        path: &Path<A>,
        source: &mut S,
    ) -> Result<Node<A>, TreeError<A>>
        requires { IsKnownOf (known_by self.old) (S.tells source.old) }
        ensures found { IfOk result (λ x. Looks (S.tells source.new).blobs root.now path.now
            (found (node_value x))) }
        ensures refused { IfErr result
            (ExplainsLookup (S.tells source.new).blobs root.now path.now) }
        ensures called { Calls (Asks (length path.now)) (S.tells source.old) (S.tells source.new)
            (IsErrOf result TreeError.Fetch) }
        ensures only { AsksNoOther (OnWay (S.tells source.new).blobs root.now path.now)
            (S.tells source.old) (S.tells source.new) }
        ensures learned { Learns (OnWay (S.tells source.new).blobs root.now path.now)
            (IsCutShort result) (known_by self.old) (known_by self.new)
            (S.tells source.old) (S.tells source.new) }
    {
        let names = path.to_names(alloc)?;
        match self.descend(alloc, root, &names, source)? {
            Some(node) => Ok(node),
            None => Err(TreeError::Absent(Path::copy_of(alloc, path)?)),
        }
    }

    /// The node at the end of the names, if there is one.
    fn descend<S: BlobSource<A>>(
        &mut self,
        alloc: A,
        root: &Digest,
        names: &[Name<A>],
        source: &mut S,
    ) -> Result<Option<Node<A>>, TreeError<A>>
        requires { IsKnownOf (known_by self.old) (S.tells source.old) }
        ensures found { IfOk result (λ o. Looks (S.tells source.new).blobs root.now names.now
            (looked o)) }
        ensures refused { IfErr result
            (ExplainsLookup (S.tells source.new).blobs root.now names.now) }
        ensures called { Calls (Asks (length names.now)) (S.tells source.old) (S.tells source.new)
            (IsErrOf result TreeError.Fetch) }
        ensures only { AsksNoOther (OnWay (S.tells source.new).blobs root.now names.now)
            (S.tells source.old) (S.tells source.new) }
        ensures learned { Learns (OnWay (S.tells source.new).blobs root.now names.now)
            (IsCutShort result) (known_by self.old) (known_by self.new)
            (S.tells source.old) (S.tells source.new) }
    {
        let mut node = Node::Dir(*root);
        for name in names {
            let Node::Dir(digest) = node else {
                return Ok(None);
            };
            match self.child(alloc, source, &digest, name)? {
                Some(next) => node = next,
                None => return Ok(None),
            }
        }
        Ok(Some(node))
    }
}
