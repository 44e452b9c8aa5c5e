//! Rows of messages that are made of their parts.
use crate::answers::{Answer, Broken, copied, push_text, said, word, yes_or_no};
use crate::nodes::node_told;
use action_messages::*;
use blob_digest::Digest;
use messages::*;
use std::alloc::{AllocError, Allocator, Global};

pub fn answer<A: Allocator + Copy>(global: Global, alloc: A, fields: &[Vec<u8>]) -> Answer {
    let [kind, given, _] = fields else {
        return Err(Broken::NoRow);
    };
    match word(kind) {
        "made" => made(global, alloc, given),
        "link" => link_copied(global, alloc, given),
        "lists" => yes_or_no(global, command_lists(alloc, given)?),
        "child" => child(global, alloc, given),
        "frame" => copied(global, &frame_in(alloc, given)?),
        "action" => copied(global, &action_of(alloc, given)?),
        "outputs" => ordered(global, alloc, given),
        _ => Err(Broken::NoRow),
    }
}

/// The encoding of what is made of parts.
fn made<A: Allocator + Copy>(global: Global, alloc: A, name: &[u8]) -> Answer {
    match word(name) {
        "Command" => copied(global, &command_by_parts(alloc)?),
        "Result" => copied(global, &result_by_parts(alloc)?),
        "Action" => copied(global, &action_by_parts(alloc)?),
        "Directory" => copied(global, &three(alloc)?.encode(alloc)?),
        "Tree" => copied(global, &small_tree(alloc)?.encode(alloc)?),
        "Tree without its child" => copied(global, &childless(alloc)?),
        _ => Err(Broken::NoRow),
    }
}

fn string<A: Allocator>(alloc: A, text: &str) -> Result<String<A>, AllocError> {
    String::from_str(alloc, text)
}

/// A vector of this alone.
fn one<T: Drop, A: Allocator>(alloc: A, item: T) -> Result<Vec<T, A>, AllocError> {
    let mut items = Vec::new(alloc);
    items.push(item)?;
    Ok(items)
}

/// The encoding of a command that runs `/bin/true` with `A` empty in the folder `w`, for `out`.
fn command_by_parts<A: Allocator + Copy>(alloc: A) -> Result<Vec<u8, A>, MessageError> {
    let arguments = one(alloc, string(alloc, "/bin/true")?)?;
    let variable = EnvironmentVariable::new(string(alloc, "A")?, String::new(alloc));
    let environment = one(alloc, variable)?;
    let output_paths = one(alloc, Path::new(alloc, b"out")?)?;
    let directory = Some(Path::new(alloc, b"w")?);
    let command = Command::new(arguments, environment, directory, output_paths)?;
    Ok(command.encode(alloc)?)
}

fn output_file<A: Allocator + Copy>(alloc: A) -> Result<OutputFile<A>, MessageError> {
    Ok(OutputFile {
        path: Path::new(alloc, b"f")?,
        digest: Digest::of(b"123456789"),
        executable: true,
    })
}

fn output_directory<A: Allocator + Copy>(alloc: A) -> Result<OutputDirectory<A>, MessageError> {
    Ok(OutputDirectory {
        path: Path::new(alloc, b"d")?,
        tree_digest: Digest::of(b"\n"),
    })
}

fn output_symlink<A: Allocator + Copy>(alloc: A) -> Result<OutputSymlink<A>, MessageError> {
    Ok(OutputSymlink {
        path: Path::new(alloc, b"l")?,
        target: Target::new(alloc, b"t")?,
    })
}

/// The encoding of a result that has one output of each kind.
fn result_by_parts<A: Allocator + Copy>(alloc: A) -> Result<Vec<u8, A>, MessageError> {
    let files = one(alloc, output_file(alloc)?)?;
    let directories = one(alloc, output_directory(alloc)?)?;
    let symlinks = one(alloc, output_symlink(alloc)?)?;
    let stdout = Stream::new(Vec::from_slice(alloc, b"o")?, None);
    let stderr = Stream::new(Vec::new(alloc), Some(Digest::empty()));
    let result = ActionResult::new(files, directories, symlinks, -1, stdout, stderr)?;
    Ok(result.encode(alloc)?)
}

/// The encoding of an action that does all that it can.
fn action_by_parts<A: Allocator + Copy>(alloc: A) -> Result<Vec<u8, A>, MessageError> {
    let property = Property::new(string(alloc, "a")?, string(alloc, "1")?);
    let platform = Platform::new(one(alloc, property)?)?;
    let salt = Vec::from_slice(alloc, b"s")?;
    let action = Action::new(Digest::of(b"\n"), Digest::empty(), true, salt, platform);
    Ok(action.encode(alloc)?)
}

/// The encoding of an action's frame.
fn frame_in<A: Allocator + Copy>(alloc: A, bytes: &[u8]) -> Result<Vec<u8, A>, MessageError> {
    let action = Action::decode(alloc, bytes)?;
    Ok(action.frame().encode(alloc)?)
}

/// The encoding of an action with the frame of these bytes and no input.
fn action_of<A: Allocator + Copy>(alloc: A, bytes: &[u8]) -> Result<Vec<u8, A>, MessageError> {
    let frame = Frame::decode(alloc, bytes)?;
    Ok(frame.with_input(Digest::empty()).encode(alloc)?)
}

/// Whether a command with the output paths `a-b`, `a/b` and `a0` lists this one.
fn command_lists<A: Allocator + Copy>(alloc: A, text: &[u8]) -> Result<bool, MessageError> {
    let command = Command::decode(alloc, b"\x0a\x09/bin/true\x3a\x03a-b\x3a\x03a/b\x3a\x02a0")?;
    Ok(command.lists(&Path::new(alloc, text)?))
}

fn file_node<A: Allocator + Copy>(alloc: A) -> Result<FileNode<A>, MessageError> {
    Ok(FileNode {
        name: Name::new(alloc, b"f")?,
        digest: Digest::of(b"123456789"),
        executable: true,
    })
}

fn directory_node<A: Allocator + Copy>(alloc: A) -> Result<DirectoryNode<A>, MessageError> {
    Ok(DirectoryNode {
        name: Name::new(alloc, b"d")?,
        digest: Digest::empty(),
    })
}

fn symlink_node<A: Allocator + Copy>(alloc: A) -> Result<SymlinkNode<A>, MessageError> {
    Ok(SymlinkNode {
        name: Name::new(alloc, b"l")?,
        target: Target::new(alloc, b"f")?,
    })
}

/// A directory of a file `f`, a directory `d` and a symbolic link `l`, by its parts.
fn three<A: Allocator + Copy>(alloc: A) -> Result<Directory<A>, MessageError> {
    let files = one(alloc, file_node(alloc)?)?;
    let directories = one(alloc, directory_node(alloc)?)?;
    let symlinks = one(alloc, symlink_node(alloc)?)?;
    Directory::new(files, directories, symlinks)
}

/// A tree of an empty child, by its parts.
fn small_tree<A: Allocator + Copy>(alloc: A) -> Result<Tree<A>, MessageError> {
    let empty = Directory::new(Vec::new(alloc), Vec::new(alloc), Vec::new(alloc))?;
    let children = one(alloc, empty)?;
    Tree::new(alloc, three(alloc)?, children)
}

/// The encoding of a tree that lacks its child.
fn childless<A: Allocator + Copy>(alloc: A) -> Result<Vec<u8, A>, MessageError> {
    let tree = Tree::new(alloc, three(alloc)?, Vec::new(alloc))?;
    Ok(tree.encode(alloc)?)
}

/// The name and the target of a copy of the link.
fn link_copied<A: Allocator + Copy>(global: Global, alloc: A, bytes: &[u8]) -> Answer {
    let node: SymlinkNode<A> = decode(alloc, bytes)?;
    let SymlinkNode { name, target } = node.clone()?;
    let (name, target) = (name.as_str(), target.as_str());
    Ok(format!(in global; "{name} to {target}")?.into_bytes())
}

/// The child of this name in the directory of three.
fn child<A: Allocator + Copy>(global: Global, alloc: A, name: &[u8]) -> Answer {
    match three(alloc)?.child(alloc, name)? {
        Some(node) => node_told(global, &node),
        None => said(global, "none"),
    }
}

/// The paths of a result's outputs of all kinds, each with a comma after it.
fn ordered<A: Allocator + Copy>(global: Global, alloc: A, bytes: &[u8]) -> Answer {
    let result = ActionResult::decode(alloc, bytes)?;
    let mut paths = Vec::new(global);
    for output in result.outputs(alloc)? {
        push_text(&mut paths, output.path().as_bytes())?;
    }
    Ok(paths)
}
