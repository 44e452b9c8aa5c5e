ghost use Rattle.std.specs.Prelude.{◌≡◌};
ghost use Rattle.messages.specs.DigestMessage.{digest_shape};
ghost use Rattle.messages.specs.FileNode.{file_node_shape};
ghost use Rattle.messages.specs.DirectoryNode.{directory_node_shape};
ghost use Rattle.messages.specs.SymlinkNode.{symlink_node_shape};
ghost use Rattle.messages.specs.Directory.{directory_shape};
ghost use Rattle.messages.specs.Tree.{tree_shape};

use canonical::{Entry, Kind, Shape};

/// A field that comes once at most, by its number and kind: an entry of a shape.
#[macro_export]
macro_rules! single {
    ($number:literal, $kind:ident) => {
        Entry {
            number: $number,
            kind: Kind::$kind,
            repeated: false,
        }
    };
}

/// A field that may come again.
#[macro_export]
macro_rules! repeated {
    ($number:literal, $kind:ident) => {
        Entry {
            number: $number,
            kind: Kind::$kind,
            repeated: true,
        }
    };
}

/// `Digest`: hash, size_bytes.
pub(crate) fn digest_shape() -> Shape<'static>
    ensures { result ≡ digest_shape }
{
    Shape::new(&[single!(1, String), single!(2, Int64)])
}

/// `FileNode`: name, digest, is_executable.
pub(crate) fn file_node_shape() -> Shape<'static>
    ensures { result ≡ file_node_shape }
{
    Shape::new(&[single!(1, String), single!(2, Message), single!(4, Bool)])
}

/// `DirectoryNode`: name, digest.
pub(crate) fn directory_node_shape() -> Shape<'static>
    ensures { result ≡ directory_node_shape }
{
    Shape::new(&[single!(1, String), single!(2, Message)])
}

/// `SymlinkNode`: name, target.
pub(crate) fn symlink_node_shape() -> Shape<'static>
    ensures { result ≡ symlink_node_shape }
{
    Shape::new(&[single!(1, String), single!(2, String)])
}

/// `Directory`: files, directories, symlinks.
pub(crate) fn directory_shape() -> Shape<'static>
    ensures { result ≡ directory_shape }
{
    Shape::new(&[
        repeated!(1, Message),
        repeated!(2, Message),
        repeated!(3, Message),
    ])
}

/// `Tree`: root, children.
pub(crate) fn tree_shape() -> Shape<'static>
    ensures { result ≡ tree_shape }
{
    Shape::new(&[single!(1, Message), repeated!(2, Message)])
}
