use std::io;

/// Why a process came to nothing.
#[derive(Clone, Copy, Debug)]
pub enum ProcessCause {
    /// The process couldn't be started.
    Unstarted(io::Error),
    /// The process couldn't be waited for.
    Unwaited(io::Error),
    /// What the process left at its output paths couldn't be read.
    Unread(io::Error),
    /// The signal with this number ended the process.
    Signal(i32),
}

/// A process that came to nothing: where in the plan, of which program, and why.
#[derive(Debug, Drop)]
pub struct ProcessFault {
    pub place: String,
    pub program: String,
    pub cause: ProcessCause,
}
