ghost use Rattle.std.specs.Prelude.{◌≡◌, ◌≢◌, IfOk};
ghost use Rattle.tree.specs.Comparing.{IsUnlikeIfAny, IsFirst};
ghost use Rattle.tree.specs.Form.{node_value};

use crate::unfolding::children_by_name;
use blob_digest::Digest;
use messages::{Directory, Name, Node, Path};
use std::alloc::{AllocError, Allocator};
use std::cmp::Ordering;

/// Where a graft and a recorded directory first differ, by the names in their paths.
#[derive(Drop)]
#[derive_where(Debug)]
pub enum Difference<A: Allocator> {
    /// Only the recorded directory has the path.
    Unexplained(Path<A>),
    /// Only the graft has the path.
    Absent(Path<A>),
    /// Each has the path, but not the same there.
    Differs(Path<A>),
}

/// How two directories' children of one name are not the same.
#[derive(Drop)]
pub(crate) enum Unlike {
    OnlyRecorded,
    OnlyGrafted,
    Directories { grafted: Digest, recorded: Digest },
    Others,
}

/// The first name at which two directories are not the same.
#[derive(Drop)]
pub(crate) struct FirstName<A: Allocator> {
    pub(crate) name: Name<A>,
    pub(crate) unlike: Unlike,
}

/// How two nodes are not the same, unless they are.
fn how_unlike<A: Allocator>(grafted: &Node<A>, recorded: &Node<A>) -> Option<Unlike>
    ensures { IsUnlikeIfAny (node_value grafted.now) (node_value recorded.now) result }
{
    let is_same = match grafted {
        Node::File { digest, executable } => match recorded {
            Node::File {
                digest: other,
                executable: bit,
            } => digest == other && executable == bit,
            Node::Link { .. } | Node::Dir(_) => false,
        },
        Node::Link { target } => match recorded {
            Node::Link { target: other } => target == other,
            Node::File { .. } | Node::Dir(_) => false,
        },
        Node::Dir(grafted) => match recorded {
            Node::Dir(recorded) if grafted == recorded => true,
            Node::Dir(recorded) => {
                return Some(Unlike::Directories {
                    grafted: *grafted,
                    recorded: *recorded,
                });
            }
            Node::File { .. } | Node::Link { .. } => false,
        },
    };
    (!is_same).then_some(Unlike::Others)
}

/// The first name at which two directories don't have the same child, side by side.
pub(crate) fn first_name<A: Allocator + Copy>(
    alloc: A,
    grafted: &Directory<A>,
    recorded: &Directory<A>,
) -> Result<FirstName<A>, AllocError>
    requires { grafted.now ≢ recorded.now }
    ensures { IfOk result (λ first. IsFirst grafted.now recorded.now first) }
{
    let mut others = children_by_name(alloc, recorded)?.into_iter();
    for (name, node) in children_by_name(alloc, grafted)? {
        let Some((other, recorded)) = others.next() else {
            let unlike = Unlike::OnlyGrafted;
            return Ok(FirstName { name, unlike });
        };
        match name.cmp(&other) {
            Ordering::Less => {
                let unlike = Unlike::OnlyGrafted;
                return Ok(FirstName { name, unlike });
            }
            Ordering::Greater => {
                let unlike = Unlike::OnlyRecorded;
                return Ok(FirstName {
                    name: other,
                    unlike,
                });
            }
            Ordering::Equal => {
                if let Some(unlike) = how_unlike(&node, &recorded) {
                    return Ok(FirstName { name, unlike });
                }
            }
        }
    }
    match others.next() {
        Some((name, _)) => Ok(FirstName {
            name,
            unlike: Unlike::OnlyRecorded,
        }),
        None => unreachable!(),
    }
}
