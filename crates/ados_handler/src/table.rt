//! A table of values under numbers from 1 to 2,147,483,647. The table chooses the numbers.
ghost use Rattle.std.specs.Prelude.{◌≡◌, ◌==◌, Bool, false, IsTrue, IfNone, OnErr, OnOk, OnSome, length};
ghost use Rattle.std.specs.Fn.{FnReturnsAt};
ghost use Rattle.std.specs.List.{list_any};
ghost use Rattle.std.specs.Option.{option_copied};
ghost use Rattle.std.specs.FinMap as numbered;

use slab::Slab;
use std::alloc::{AllocError, Global};
use std::marker::Model;

/// Values under their numbers. A freed number may be used again.
///
/// Contracts see the finite map from numbers to values, and whether there is a place for one more value: memory, and a
/// number.
#[derive(Drop)]
pub struct Table<T> {
    pub(crate) slab: Slab<T>,
}

impl<T> Model for Table<T> {
    ghost use Rattle.ados_handler.specs.steps.Table.{NumbersFit, TableState, table_code, table_view};

    ghost Value = { TableState T };

    ghost coded = { table_code T.code };

    ghost view = { λ a. table_view a.slab };

    ghost invariant = { λ a. NumbersFit a.slab };
}

/// There is no memory, or no free number below 2^31.
#[derive(Clone, Copy, PartialEq, Eq)]
pub struct NoPlace;

impl<T> Table<T> {
    ghost use Rattle.ados_model.specs.Session.{IsFreeNumber};
    ghost use Rattle.ados_handler.specs.steps.Table.{IsTestBy};

    /// An empty table, without a place.
    pub fn new(alloc: Global) -> Self
        ensures held { result.held ≡ numbered.empty }
        ensures full { result.ready ≡ false }
    {
        Table {
            slab: Slab::new(alloc),
        }
    }

    /// The value under a number.
    pub fn get(&self, number: u32) -> Option<&T>
        ensures { option_copied result ≡ numbered.get self.now.held number }
    {
        let slab = &self.slab;
        if number == 0 {
            return None;
        }
        slab.get(number as usize - 1)
    }

    /// Reserves a place for one more value. It fails only where there is none.
    pub fn reserve(&mut self) -> Result<(), NoPlace>
        ensures held { self.new.held ≡ self.old.held }
        ensures ready { OnOk result (IsTrue self.new.ready) }
        ensures full { OnErr result (self.old.ready ≡ false) }
        ensures stays { IsTrue self.old.ready → IsTrue self.new.ready }
    {
        if self.slab.vacant_key() >= 2_147_483_647 {
            return Err(NoPlace);
        }
        match self.slab.reserve(1) {
            Ok(()) => Ok(()),
            Err(AllocError) => Err(NoPlace),
        }
    }

    /// Puts a value into the reserved place, under a free number.
    pub fn insert_reserved(&mut self, value: T) -> u32
        requires { IsTrue self.old.ready }
        ensures free { IsFreeNumber self.old.held result }
        ensures held { self.new.held ≡ numbered.insert self.old.held result value }
    {
        let key = self.slab.insert_reserved(value);
        key as u32 + 1
    }

    /// Removes the value under a number and returns it. Its place is free then.
    pub fn remove(&mut self, number: u32) -> Option<T>
        ensures value { result ≡ numbered.get self.old.held number }
        ensures held { self.new.held ≡ numbered.remove self.old.held number }
        ensures place { OnSome result (IsTrue self.new.ready) }
        ensures none { IfNone result (self.new ≡ self.old) }
    {
        let slab = &mut self.slab;
        if number == 0 {
            return None;
        }
        slab.try_remove(number as usize - 1)
    }

    /// Whether some value passes the test.
    pub fn any<F: Fn(&T) -> bool>(&self, test: F) -> bool
        requires { F.IsAlwaysCallable test }
        ensures { (passes : T → Bool) → IsTestBy (FnReturnsAt F.Fn) test passes → result ≡ list_any passes (numbered.values self.now.held) }
    {
        let slab = &self.slab;
        for (_, value) in slab.iter() {
            if test(value) {
                return true;
            }
        }
        false
    }

    /// Whether no number is in use.
    pub fn is_empty(&self) -> bool
        ensures { result ≡ (length (numbered.values self.now.held) == 0) }
    {
        self.slab.is_empty()
    }
}
