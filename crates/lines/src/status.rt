// The statuses of a program that tells of an image.
ghost use Rattle.std.specs.Prelude.{◌≡◌};
ghost use Rattle.lines.specs.Status.{status_of};

/// A run halted, stopped, was refused, used its budget, or could not be told.
#[derive(Clone, Copy, Debug, PartialEq, Eq)]
pub enum Status {
    Halted = 0,
    Stopped = 1,
    Refused = 2,
    UsedUp = 3,
    NotTold = 4,
}

impl From<Status> for u32 {
    fn from(status: Status) -> u32 {
        status as u32
    }
}

impl Status {
    /// The status of a run that ended with an answer.
    pub fn of(answer: u32) -> Status
        ensures { result ≡ status_of answer }
    {
        match answer {
            0 => Status::UsedUp,
            1 => Status::Halted,
            _ => Status::Stopped,
        }
    }
}
