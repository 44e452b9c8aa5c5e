ghost use Rattle.remote.specs.Reply.{NextIsOne};

/// A stream begins with one reply at most. A law: it does nothing.
pub fn the_next_reply_is_one()
    ensures { NextIsOne }
{}
