//! Lines that are merged, as rows spell them: a target with a node each, which is read in the
//! source.
ghost use Rattle.std.specs.Prelude.{IfOk};
ghost use Rattle.tree.specs.Folded.{IsFoldOfValid};

use crate::answers::Broken;
use crate::nodes::node_of;
use messages::Path;
use std::alloc::Allocator;
use tree::{BlobSource, Folded, Memo, Node, TreeError, Within, merge};

/// The line of this text.
fn line_of<A: Allocator + Copy>(alloc: A, text: &[u8]) -> Result<(Path<A>, Node<A>), Broken> {
    let Ok(text) = str::from_utf8(text) else {
        return Err(Broken::NoRow);
    };
    let Some((target, node)) = text.split_once(' ') else {
        return Err(Broken::NoRow);
    };
    let Some((word, rest)) = node.split_once(' ') else {
        return Err(Broken::NoRow);
    };
    let node = node_of(alloc, word.as_bytes(), rest.as_bytes())?;
    Ok((Path::new(alloc, target.as_bytes())?, node))
}

/// What the lines of these texts put together, or why they don't.
pub fn merged<A: Allocator + Copy, S: BlobSource<A>>(
    alloc: A,
    texts: &[Vec<u8>],
    source: &mut S,
) -> Result<Result<Folded<A>, TreeError<A>>, Broken>
    ensures { IfOk result (λ told. IfOk told (λ folded. IsFoldOfValid folded)) }
{
    let mut lines = Vec::new(alloc);
    for text in texts {
        let (target, node) = line_of(alloc, text)?;
        lines.push((target, node, Within::Source))?;
    }
    let mut memo = Memo::new(alloc);
    Ok(merge(alloc, &lines, &mut memo, source))
}
