//! How a command ends.

ghost use Rattle.std.specs.Prelude.{◌≡◌};
ghost use Rattle.plans.specs.Faults.{status_at};

/// How a command ends that has met no fault.
#[derive(Clone, Copy)]
pub enum Outcome {
    /// It did what it was asked for.
    Done,
    /// A step of a journal was refused.
    Refused,
    /// The report of a journal is not that of the network.
    Differs,
}

impl Outcome {
    /// The exit status of the program.
    pub fn status(self) -> u8
        ensures { result ≡ status_at self }
    {
        match self {
            Outcome::Done => 0,
            Outcome::Refused => 2,
            Outcome::Differs => 3,
        }
    }
}
