ghost use Rattle.std.specs.Prelude.{◌≡◌, ◌↔◌, ◌+◌, ◌<◌, [], ◌∷◌, ◌++◌, IfOk, IfErr, IsErrOf, OnOk};
ghost use Rattle.std.specs.Prelude.{ℕ, MatchOption};
ghost use Rattle.std.specs.Prelude.{is_some, length, map, IsTrue};
ghost use Rattle.blob_source.specs.Called.{Called};
ghost use Rattle.messages.specs.Path.{IsPath};
ghost use Rattle.messages.specs.declared.node.Node.TheVariants.{Dir};
ghost use Rattle.tree.specs.Folded.{IsFoldOfPassed, IsNode};
ghost use Rattle.tree.specs.Form.{node_value};
ghost use Rattle.tree.specs.Lookup.{names_in};
ghost use Rattle.tree.specs.Memo.{IsKnownOf, WasRefused, Learns, known_by};
ghost use Rattle.tree.specs.Merging.{AreHeld, CanMeet, ExplainsMerge, IsFirstIn, IsHeldIn};
ghost use Rattle.tree.specs.Merging.{counted, grouped, lone, merge_lines, merged, merged_in};
ghost use Rattle.tree.specs.Merging.{node_opened, opened, MergeLines, CanMeetAt};
ghost use Rattle.tree.specs.Merging.{child_lines};
ghost use Rattle.tree.specs.Merging.{WithinValue, in_source, in_tree};
ghost use Rattle.tree.specs.MergeLooks.{MergeLooksAt, MergeLooksIn, NodeLooksAt, OpenedLooksAt};
ghost use Rattle.tree.specs.MergeParts.{AreValidLines, CountsAfter, IsVisitOfMerged, IsVisitOfMet};
ghost use Rattle.tree.specs.MergeParts.{MeetingLooksAt, adds, group_values, lines_met, part_value};
ghost use Rattle.tree.specs.MergeParts.{part_values, within_of};

use crate::error::TreeError;
use crate::folding::{Folded, each_once};
use crate::given::Given;
use crate::memo::Memo;
use crate::unfolding::child_path;
use crate::visiting::{Children, Visited};
use blob_digest::Digest;
use blob_source::BlobSource;
use messages::{Directory, Name, Node, Path, Target, Tree};
use std::alloc::{AllocError, Allocator};
use std::collections::BTreeMap;

/// Where the Directories below a node are read.
#[derive_where(Clone, Copy)]
pub enum Within<'a, A: Allocator> {
    /// In what a source tells.
    Source,
    /// In the Tree of an output.
    Tree(&'a Tree<A>),
}

/// A line, seen from a path: the names of its target below that, what stands there, and which line
/// it is.
#[derive(Drop)]
struct Part<A: Allocator> {
    names: Vec<Name<A>, A>,
    node: Node<A>,
    line: usize,
}

/// Lines below a directory, by their first names.
type Groups<A> = BTreeMap<Name<A>, Vec<Part<A>, A>, A>;

/// Adds a line to those of a name, behind them.
fn add_part<A: Allocator + Copy>(
    alloc: A,
    groups: &mut Groups<A>,
    name: Name<A>,
    part: Part<A>,
) -> Result<(), AllocError>
    ensures { (W : ℕ → WithinValue) → OnOk result (group_values W groups.new.entries
        ≡ adds name (part_value W part) (group_values W groups.old.entries)) }
{
    if let Some(under) = groups.get_mut(&name) {
        under.push(part)?;
        return Ok(());
    }
    let mut under = Vec::with_capacity(alloc, 1)?;
    under.push(part)?;
    groups.insert(name, under)?;
    Ok(())
}

/// The lines by their first names, those of each name in their order.
fn group<A: Allocator + Copy>(alloc: A, parts: Vec<Part<A>, A>) -> Result<Groups<A>, AllocError>
    ensures { (W : ℕ → WithinValue) → IfOk result
        (λ groups. group_values W groups.entries ≡ grouped (part_values W parts.items)) }
{
    let mut groups = BTreeMap::new(alloc);
    for mut part in parts {
        if !part.names.is_empty() {
            let name = part.names.remove(0);
            add_part(alloc, &mut groups, name, part)?;
        }
    }
    Ok(groups)
}

/// Whether a line counts at a path: it goes on below, or its node isn't among those given before.
fn counts<A: Allocator + Copy>(
    alloc: A,
    part: &Part<A>,
    given: &mut Given<A>,
) -> Result<bool, AllocError>
    ensures { (W : ℕ → WithinValue) (earlier : MergeLines) → IfOk result
        (CountsAfter earlier (part_value W part.now) given.old given.new) }
{
    if part.names.is_empty() {
        given.insert(alloc, &part.node)
    } else {
        Ok(true)
    }
}

/// The lines at a path, without those whose node an earlier one gives there.
fn count_once<A: Allocator + Copy>(
    alloc: A,
    parts: Vec<Part<A>, A>,
) -> Result<Vec<Part<A>, A>, AllocError>
    ensures { (W : ℕ → WithinValue) → IfOk result
        (λ v. part_values W v.items ≡ counted [] (part_values W parts.items)) }
{
    if parts.len() < 2 {
        return Ok(parts);
    }
    let mut given = Given::new(alloc);
    let mut kept = Vec::with_capacity(alloc, parts.len())?;
    for part in parts {
        let is_new = counts(alloc, &part, &mut given)?;
        if is_new {
            kept.push(part)?;
        }
    }
    Ok(kept)
}

/// One node alone is given.
fn is_lone<A: Allocator>(parts: &[Part<A>]) -> bool
    ensures { (W : ℕ → WithinValue) → result ≡ is_some (lone (part_values W parts.now)) }
{
    match parts {
        [part] => part.names.is_empty(),
        _ => false,
    }
}

/// The line goes on below the path, or gives a directory at it.
fn can_meet_at<A: Allocator>(part: &Part<A>) -> bool
    ensures { (W : ℕ → WithinValue) → IsTrue result
        ↔ CanMeetAt (part_value W part.now).0 (part_value W part.now).1 }
{
    if !part.names.is_empty() {
        return true;
    }
    match part.node {
        Node::Dir(_) => true,
        Node::File { .. } | Node::Link { .. } => false,
    }
}

/// All that is given are directories, and paths may have more names.
fn can_meet<A: Allocator>(deeper: usize, parts: &[Part<A>]) -> bool
    ensures { (W : ℕ → WithinValue) → IsTrue result
        ↔ CanMeet deeper (part_values W parts.now) }
{
    if deeper == 0 {
        return false;
    }
    for part in parts {
        if !can_meet_at(part) {
            return false;
        }
    }
    true
}

/// Appends a line for a child.
fn push_child<A: Allocator + Copy>(
    alloc: A,
    name: &Name<A>,
    node: Node<A>,
    line: usize,
    parts: &mut Vec<Part<A>, A>,
) -> Result<(), AllocError>
    ensures { (W : ℕ → WithinValue) → OnOk result (part_values W parts.new.items
        ≡ part_values W parts.old.items
        ++ (name.now ∷ [], record { node = node_value node; within = W line }) ∷ []) }
{
    let mut names = Vec::with_capacity(alloc, 1)?;
    names.push(Name::copy_of(alloc, name)?)?;
    parts.push(Part { names, node, line })?;
    Ok(())
}

/// Appends a line for each child.
fn push_children<A: Allocator + Copy>(
    alloc: A,
    directory: &Directory<A>,
    line: usize,
    parts: &mut Vec<Part<A>, A>,
) -> Result<(), AllocError>
    ensures { (W : ℕ → WithinValue) → OnOk result (part_values W parts.new.items
        ≡ part_values W parts.old.items ++ child_lines (W line) directory.now) }
{
    for file in directory.files() {
        let node = Node::File {
            digest: file.digest,
            executable: file.executable,
        };
        push_child(alloc, &file.name, node, line, parts)?;
    }
    for directory in directory.directories() {
        push_child(
            alloc,
            &directory.name,
            Node::Dir(directory.digest),
            line,
            parts,
        )?;
    }
    for symlink in directory.symlinks() {
        let target = Target::copy_of(alloc, &symlink.target)?;
        push_child(alloc, &symlink.name, Node::Link { target }, line, parts)?;
    }
    Ok(())
}

/// The Tree within which a line's node stands, if it is one.
fn tree_of<'t, A: Allocator>(
    lines: &[(Path<A>, Node<A>, Within<'t, A>)],
    line: usize,
) -> Option<&'t Tree<A>>
    ensures { MatchOption result (within_of lines.now line ≡ in_source)
        (λ t. within_of lines.now line ≡ in_tree t.now) }
{
    match lines.get(line)?.2 {
        Within::Source => None,
        Within::Tree(tree) => Some(tree),
    }
}

/// The root of a Tree where that has the digest, and else the first child that has it.
fn directory_in<'t, A: Allocator + Copy>(
    alloc: A,
    tree: &'t Tree<A>,
    digest: &Digest,
) -> Result<&'t Directory<A>, AllocError>
    requires { IsHeldIn (in_tree tree.now) (Dir digest.now) }
    ensures { IfOk result
        (λ m. IsFirstIn (tree.now.root ∷ tree.now.children) digest.now m.now) }
{
    if Digest::of(&tree.root().encode(alloc)?) == *digest {
        return Ok(tree.root());
    }
    for (index, other) in tree.child_digests().iter().enumerate() {
        if *other == *digest {
            return Ok(&tree.children()[index]);
        }
    }
    unreachable!()
}

/// Appends a line for each child of what a line gives at a path.
fn open_node<A: Allocator + Copy, S: BlobSource<A>>(
    alloc: A,
    lines: &[(Path<A>, Node<A>, Within<'_, A>)],
    part: &Part<A>,
    memo: &mut Memo<A>,
    source: &mut S,
    parts: &mut Vec<Part<A>, A>,
) -> Result<(), TreeError<A>>
    requires known { IsKnownOf (known_by memo.old) (S.tells source.old) }
    requires held { IsHeldIn (within_of lines.now part.now.line) (node_value part.now.node) }
    ensures opened { OnOk result ((new : MergeLines)
        × (node_opened (S.tells source.new).blobs (node_value part.now.node)
        (within_of lines.now part.now.line)).passes new
        × (part_values (within_of lines.now) parts.new.items
        ≡ part_values (within_of lines.now) parts.old.items ++ new)) }
    ensures refused { IfErr result (ExplainsMerge (node_opened (S.tells source.new).blobs
        (node_value part.now.node) (within_of lines.now part.now.line)).fails) }
    ensures called { Called (S.tells source.old) (S.tells source.new)
        (IsErrOf result TreeError.Fetch) }
    ensures learned { Learns (NodeLooksAt (within_of lines.now part.now.line)
        (node_value part.now.node)) (WasRefused result)
        (known_by memo.old) (known_by memo.new) (S.tells source.old) (S.tells source.new) }
{
    let Node::Dir(digest) = &part.node else {
        return Ok(());
    };
    let Some(tree) = tree_of(lines, part.line) else {
        let directory: Directory<A> = memo.message(alloc, source, digest)?;
        return Ok(push_children(alloc, &directory, part.line, parts)?);
    };
    let directory = directory_in(alloc, tree, digest)?;
    Ok(push_children(alloc, directory, part.line, parts)?)
}

/// The lines below a path: a directory that is given at it is read, in the order of the lines, and
/// its children take its place.
fn open_parts<A: Allocator + Copy, S: BlobSource<A>>(
    alloc: A,
    lines: &[(Path<A>, Node<A>, Within<'_, A>)],
    parts: Vec<Part<A>, A>,
    memo: &mut Memo<A>,
    source: &mut S,
) -> Result<Vec<Part<A>, A>, TreeError<A>>
    requires known { IsKnownOf (known_by memo.old) (S.tells source.old) }
    requires held { AreHeld (part_values (within_of lines.now) parts.items) }
    ensures opened { IfOk result (λ v. (opened (S.tells source.new).blobs
        (part_values (within_of lines.now) parts.items)).passes
        (part_values (within_of lines.now) v.items)) }
    ensures refused { IfErr result (ExplainsMerge (opened (S.tells source.new).blobs
        (part_values (within_of lines.now) parts.items)).fails) }
    ensures called { Called (S.tells source.old) (S.tells source.new)
        (IsErrOf result TreeError.Fetch) }
    ensures learned { Learns (OpenedLooksAt (S.tells source.new).blobs
        (part_values (within_of lines.now) parts.items)) (WasRefused result)
        (known_by memo.old) (known_by memo.new) (S.tells source.old) (S.tells source.new) }
{
    let mut below = Vec::with_capacity(alloc, parts.len())?;
    for part in parts {
        if part.names.is_empty() {
            open_node(alloc, lines, &part, memo, source, &mut below)?;
        } else {
            below.push(part)?;
        }
    }
    Ok(below)
}

/// The Directories of the tree that lines come to at a path at which they meet, and below which
/// paths may have `deeper` more names.
#[cycle(merge_below)]
fn meet<A: Allocator + Copy, S: BlobSource<A>>(
    alloc: A,
    lines: &[(Path<A>, Node<A>, Within<'_, A>)],
    path: Path<A>,
    deeper: usize,
    parts: Vec<Part<A>, A>,
    memo: &mut Memo<A>,
    source: &mut S,
) -> Result<Visited<A>, TreeError<A>>
    requires known { IsKnownOf (known_by memo.old) (S.tells source.old) }
    requires held { AreHeld (part_values (within_of lines.now) parts.items) }
    requires depth { deeper + length path ≡ 64 }
    ensures met { IfOk result (IsVisitOfMet (lines_met (S.tells source.new).blobs deeper path
        (part_values (within_of lines.now) parts.items))) }
    ensures refused { IfErr result (ExplainsMerge (lines_met (S.tells source.new).blobs deeper path
        (part_values (within_of lines.now) parts.items)).fails) }
    ensures called { Called (S.tells source.old) (S.tells source.new)
        (IsErrOf result TreeError.Fetch) }
    ensures learned { Learns (MeetingLooksAt (S.tells source.new).blobs deeper path
        (part_values (within_of lines.now) parts.items)) (WasRefused result)
        (known_by memo.old) (known_by memo.new) (S.tells source.old) (S.tells source.new) }
{
    if !can_meet(deeper, &parts) {
        return Err(TreeError::Conflict(path));
    }
    let parts = open_parts(alloc, lines, parts, memo, source)?;
    merge_below(alloc, lines, &Some(path), deeper, parts, memo, source)
}

/// The Directories of the tree that lines below a directory come to, where paths may have `deeper`
/// more names.
#[cycle(merge_below)]
fn merge_below<A: Allocator + Copy, S: BlobSource<A>>(
    alloc: A,
    lines: &[(Path<A>, Node<A>, Within<'_, A>)],
    above: &Option<Path<A>>,
    deeper: usize,
    parts: Vec<Part<A>, A>,
    memo: &mut Memo<A>,
    source: &mut S,
) -> Result<Visited<A>, TreeError<A>>
    requires known { IsKnownOf (known_by memo.old) (S.tells source.old) }
    requires held { AreHeld (part_values (within_of lines.now) parts.items) }
    requires some { 0 < deeper }
    requires depth { deeper + length (names_in above.now) ≡ 64 }
    ensures merged { IfOk result (IsVisitOfMerged (merged_in (S.tells source.new).blobs deeper
        (names_in above.now) (part_values (within_of lines.now) parts.items))) }
    ensures refused { IfErr result (ExplainsMerge (merged_in (S.tells source.new).blobs deeper
        (names_in above.now) (part_values (within_of lines.now) parts.items)).fails) }
    ensures called { Called (S.tells source.old) (S.tells source.new)
        (IsErrOf result TreeError.Fetch) }
    ensures learned { Learns (MergeLooksIn (S.tells source.new).blobs deeper (names_in above.now)
        (part_values (within_of lines.now) parts.items)) (WasRefused result)
        (known_by memo.old) (known_by memo.new) (S.tells source.old) (S.tells source.new) }
{
    let mut children = Children::new(alloc);
    for (name, parts) in group(alloc, parts)? {
        let parts = count_once(alloc, parts)?;
        if is_lone(&parts) {
            children.push(alloc, name, &parts[0].node)?;
        } else {
            let path = child_path(alloc, above.as_ref(), &name)?;
            let below = meet(alloc, lines, path, deeper - 1, parts, memo, source)?;
            children.push_folder(name, below)?;
        }
    }
    Ok(children.close(alloc)?)
}

/// A copy of the node, over memory of its own.
fn copy_node<A: Allocator + Copy>(alloc: A, node: &Node<A>) -> Result<Node<A>, AllocError>
    ensures copy { IfOk result (λ copy. copy ≡ node.now) }
    ensures valid { IfOk result (λ copy. IsNode (node_value node.now)) }
{
    Ok(match node {
        Node::File { digest, executable } => {
            let _ = digest.size();
            Node::File {
                digest: *digest,
                executable: *executable,
            }
        }
        Node::Link { target } => {
            let _ = target.as_str();
            Node::Link {
                target: Target::copy_of(alloc, target)?,
            }
        }
        Node::Dir(digest) => {
            let _ = digest.size();
            Node::Dir(*digest)
        }
    })
}

/// The lines, seen from the root.
fn first_parts<A: Allocator + Copy>(
    alloc: A,
    lines: &[(Path<A>, Node<A>, Within<'_, A>)],
) -> Result<Vec<Part<A>, A>, AllocError>
    ensures parts { IfOk result
        (λ v. part_values (within_of lines.now) v.items ≡ merge_lines lines.now) }
    ensures valid { IfOk result (λ v. AreValidLines (merge_lines lines.now)) }
{
    let mut parts = Vec::with_capacity(alloc, lines.len())?;
    for (index, line) in lines.iter().enumerate() {
        parts.push(Part {
            names: line.0.to_names(alloc)?,
            node: copy_node(alloc, &line.1)?,
            line: index,
        })?;
    }
    Ok(parts)
}

/// The tree that lines put together: at each line's target its node, with the directories above
/// it. Where nodes meet at a path, they are one, or directories, which are read: where there is one
/// node alone, nothing is. The digest of the tree's root, and the Directories that were made, each
/// distinct one once, in the order of their first visits. Lines may stand in any order, and their
/// targets may overlap. Refusals: `Conflict`, `BlobMissing`, `BlobWrong` and `BlobMalformed`.
pub fn merge<A: Allocator + Copy, S: BlobSource<A>>(
    alloc: A,
    lines: &[(Path<A>, Node<A>, Within<'_, A>)],
    memo: &mut Memo<A>,
    source: &mut S,
) -> Result<Folded<A>, TreeError<A>>
    requires known { IsKnownOf (known_by memo.old) (S.tells source.old) }
    requires held { AreHeld (merge_lines lines.now) }
    ensures merged { IfOk result
        (IsFoldOfPassed (merged (S.tells source.new).blobs (merge_lines lines.now))) }
    ensures refused { IfErr result (ExplainsMerge
        (merged (S.tells source.new).blobs (merge_lines lines.now)).fails) }
    ensures called { Called (S.tells source.old) (S.tells source.new)
        (IsErrOf result TreeError.Fetch) }
    ensures learned { Learns (MergeLooksAt (S.tells source.new).blobs (merge_lines lines.now))
        (WasRefused result)
        (known_by memo.old) (known_by memo.new) (S.tells source.old) (S.tells source.new) }
{
    let parts = first_parts(alloc, lines)?;
    let visited = merge_below(alloc, lines, &None, 64, parts, memo, source)?;
    Ok(Folded {
        root: visited.root,
        directories: each_once(alloc, visited.encodings)?,
    })
}
