//! Refusals of calls, and their numbers.

ghost use Rattle.std.specs.Prelude.{◌≡◌, pos};
ghost use Rattle.adf_c.specs.Status.{refusal_number, status_of};

/// Why a call is refused. Nothing visible to C has changed then. The numbers are this project's own choice.
#[derive(Clone, Copy)]
pub enum Refusal {
    /// 1: the bytes are no image of a volume.
    NotAnImage,
    /// 2: out of memory.
    NoMemory,
    /// 3: the call does not accept an argument.
    WrongArgument,
}

impl Refusal {
    /// The status for C. A call that is not refused has status 0.
    pub fn number(self) -> i32
        ensures { result ≡ pos (refusal_number self) }
    {
        match self {
            Refusal::NotAnImage => 1,
            Refusal::NoMemory => 2,
            Refusal::WrongArgument => 3,
        }
    }
}

/// The status of a call: 0 for success.
pub fn status(outcome: Result<(), Refusal>) -> i32
    ensures { result ≡ status_of outcome }
{
    match outcome {
        Ok(()) => 0,
        Err(refusal) => refusal.number(),
    }
}
