//! A list that only contracts see.

ghost use Rattle.std.specs.Prelude.{◌≡◌, [], ◌∷◌, ◌++◌};

use std::marker::Model;
use std::mem;
use std::snapshot::Snapshot;

// There is no value of it at run time.
#[derive(Drop)]
pub enum Past<E> {
    Start,
    Then(E, Snapshot<Past<E>>),
}

/// The history so far. Contracts see it as a list. It takes no bytes.
#[derive(Drop)]
pub struct Trail<E> {
    past: Snapshot<Past<E>>,
}

impl<E> Model for Trail<E> {
    ghost use Rattle.std.specs.Prelude.{List};

    ghost Value = { List E };

    ghost use Rattle.ados_port.specs.steps.Trails.{items};

    ghost view = { λ t. items t.past.value };
}

impl<E: Drop> Trail<E> {
    pub fn new() -> Trail<E>
        ensures { result ≡ [] }
    {
        let start: Past<E> = Past::Start;
        Trail {
            past: Snapshot::of(&start),
        }
    }

    pub fn push(&mut self, entry: E)
        ensures { self.new ≡ self.old ++ entry ∷ [] }
    {
        let start: Past<E> = Past::Start;
        let older = mem::replace(&mut self.past, Snapshot::of(&start));
        let next = Past::Then(entry, older);
        self.past = Snapshot::of(&next);
    }
}
