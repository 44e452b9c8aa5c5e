ghost use Rattle.std.specs.Prelude.{◌≡◌};
ghost use Rattle.plan.specs.Plan.{plan_header};

/// The version of a plan.
#[derive(Clone, Copy, Debug, PartialEq, Eq)]
pub enum Version {
    /// No target of a directory equals another, or lies under or above it.
    One,
    /// Targets may meet.
    Two,
}

impl Version {
    /// The first line of a plan.
    pub(crate) fn header(self) -> &'static [u8]
        ensures { result.now ≡ plan_header self }
    {
        match self {
            Version::One => b"buildplan 1\n",
            Version::Two => b"buildplan 2\n",
        }
    }
}
