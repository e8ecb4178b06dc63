//! The server of the packets at a port.
ghost use Rattle.std.specs.Prelude.{◌≡◌, Bool, true};

/// Serves requests one after the other, each with a time stamp, and may die.
///
/// An implementation defines by `gives` which replies it may give. A port adds nothing to that, and knows nothing else
/// of its server.
pub trait Server {
    /// A request of a client.
    type Request: Drop;

    /// A reply to a request.
    type Reply: Drop;

    /// The time stamp of a request.
    type Moment: Copy;

    /// The server's meaning: when it serves a request with a time stamp, the old server may become the new one and
    /// give this reply.
    ghost gives: { Self → Self.Request → Self.Moment → Self → Self.Reply → Type 0 };

    /// Whether the server has died.
    ghost has_died: { Self → Bool };

    /// Whether the reply says that the server has died.
    ghost is_closing: { Self.Reply → Bool };

    /// Serves one request. A dead server still gets the requests that were accepted before its death.
    fn serve(&mut self, request: Self::Request, moment: Self::Moment) -> Self::Reply
        ensures { gives self.old request moment self.new result };

    /// Whether the server has died. Its port is then closed.
    fn died(&self) -> bool
        ensures { result ≡ has_died self.now };

    /// Whether this reply says that the server has died.
    fn closes(reply: &Self::Reply) -> bool
        ensures { result ≡ is_closing reply.now };

    /// A dead server stays dead.
    ghost stays_dead: { (old new : Self) (request : Self.Request) (moment : Self.Moment) (reply : Self.Reply) →
        gives old request moment new reply → has_died old ≡ true → has_died new ≡ true };

    /// After a reply that closes, the server is dead.
    ghost closes_dead: { (old new : Self) (request : Self.Request) (moment : Self.Moment) (reply : Self.Reply) →
        gives old request moment new reply → is_closing reply ≡ true → has_died new ≡ true };
}
