ghost use Rattle.remote.specs.Steps.{WantsMore};

/// How many bytes at least are missing until a block ends: none where one does.
pub(crate) fn wanting(block: &[u8]) -> usize
    ensures { WantsMore block.now result }
{
    if block.ends_with(b"\r\n\r\n") {
        0
    } else if block.ends_with(b"\r\n\r") {
        1
    } else if block.ends_with(b"\r\n") {
        2
    } else if block.ends_with(b"\r") {
        3
    } else {
        4
    }
}
