//! The results of a packet.

ghost use Rattle.std.specs.Prelude.{◌≡◌, ◌<◌, pos, negsuc};
ghost use Rattle.ados_model.specs.Packet.{error_number};

use crate::answer::{Answer, Body};
use crate::dos_error::DosError;

/// The two results of a packet, and its data. The second result is 0 or a DOS error number. With the packet's action
/// they make its answer.
#[derive(Drop)]
pub struct Results {
    pub res1: i32,
    pub res2: i32,
    pub body: Body,
}

impl Results {
    fn new(res1: i32, res2: i32, body: Body) -> Self
        ensures { result ≡ record { res1 = res1; res2 = res2; body = body } }
    {
        Results { res1, res2, body }
    }

    /// A success: DOSTRUE (-1), error 0.
    pub fn done(body: Body) -> Self
        ensures { result ≡ record { res1 = negsuc 0; res2 = pos 0; body = body } }
    {
        Results::new(-1, 0, body)
    }

    /// A success with a number: a count, a position or a lock. Error 0.
    pub fn counted(count: u32, body: Body) -> Self
        requires { count < 2147483648 }
        ensures { result ≡ record { res1 = pos count; res2 = pos 0; body = body } }
    {
        Results::new(count as i32, 0, body)
    }

    /// A refusal: DOSFALSE (0), and this error.
    pub fn refused(error: DosError) -> Self
        ensures { result ≡ record { res1 = pos 0; res2 = pos (error_number error); body = Body.Empty } }
    {
        Results::new(0, error.number(), Body::Empty)
    }

    /// A refusal of a packet whose success is a count or a position: -1, and this error.
    pub fn failed(error: DosError, body: Body) -> Self
        ensures { result ≡ record { res1 = negsuc 0; res2 = pos (error_number error); body = body } }
    {
        Results::new(-1, error.number(), body)
    }

    /// The answer to a packet of this action.
    pub fn to(self, action: i32) -> Answer
        ensures { result ≡ record { action = action; res1 = self.res1; res2 = self.res2; body = self.body } }
    {
        Answer {
            action,
            res1: self.res1,
            res2: self.res2,
            body: self.body,
        }
    }
}
