//! Locks and handles on an object.

ghost use Rattle.std.specs.Prelude.{◌≡◌};
ghost use Rattle.ados_model.specs.Session.{is_held, is_held_exclusively, is_in_use};

use crate::handler::Handler;

impl Handler {
    /// Whether there is a hold, a lock or a handle, on the object.
    pub(crate) fn is_held(&self, key: u32) -> bool
        ensures { result ≡ is_held self.now.session key }
    {
        self.locks.any(|hold| hold.key == key) || self.handles.any(|hold| hold.key == key)
    }

    /// Whether there is an exclusive hold on the object.
    pub(crate) fn is_held_exclusively(&self, key: u32) -> bool
        ensures { result ≡ is_held_exclusively self.now.session key }
    {
        self.locks.any(|hold| hold.key == key && hold.exclusive)
            || self.handles.any(|hold| hold.key == key && hold.exclusive)
    }

    /// Whether an existing hold on the object excludes a new one.
    pub(crate) fn is_in_use(&self, key: u32, exclusive: bool) -> bool
        ensures { result ≡ is_in_use self.now.session key exclusive }
    {
        if exclusive {
            self.is_held(key)
        } else {
            self.is_held_exclusively(key)
        }
    }
}
