//! What a client does with its end.
ghost use Rattle.ados_port.specs.Ends.{ClientView};
ghost use Rattle.ados_port.specs.Grown.{Grown};

use crate::{ClientEnd, Server};
use std::sync::Wait;

/// What a client does with its end, on its own thread.
pub trait Client<S: Server> {
    type Report: Drop;

    /// From this end, this client may leave this end and report this.
    ghost does: { Self → ClientView S.Request S.Moment S.Reply → ClientView S.Request S.Moment S.Reply → Self.Report → Type 0 };

    fn run<R: Wait>(self, rt: &R, end: &mut ClientEnd<S>) -> Self::Report
        ensures grown { Grown end.old end.new }
        ensures does { does self end.old end.new result };
}
