//! What C holds: a pointer to a desk or to a salvage, or null. Only this file and `loose` dereference raw pointers.

ghost use Rattle.std.specs.Prelude.{◌≡◌, is_some};
ghost use Rattle.std.specs.Coded.{coded_option};
ghost use Rattle.std.specs.Option.{MatchOption};
ghost use Rattle.std.specs.declared.option.Option.{Option as Maybe};
ghost use Rattle.std.specs.declared.option.Option.TheVariants.{None, Some};
ghost use Rattle.adf_c.specs.contracts.desk.Desk.{the_row as desk_row};
ghost use Rattle.ados_salvage.specs.contracts.saved.Salvage.{the_row as salvage_row};
ghost use Rattle.adf_c.specs.Holding.{holds};

use crate::desk::Desk;
use crate::loose::Loose;
use ados_salvage::Salvage;
use std::alloc::Global;
use std::marker::Model;
use std::mem::replace;
use std::ptr::null_mut;

/// A pointer to a box of its own, or a null pointer.
pub(crate) trait Holder: Sized {
    type Value: Drop;

    ghost held: { Self → Maybe Self.Value };

    /// One without a value.
    fn closed(alloc: Global) -> Self
        ensures { held result ≡ None };

    /// One with the value of a box.
    fn holding(value: Loose<Self::Value, Global>) -> Self
        ensures { held result ≡ Some value.value };

    /// The box, if there is one.
    fn into_loose(self) -> Option<Loose<Self::Value, Global>>
        ensures { MatchOption result (held self ≡ None) (λ value. held self ≡ Some value.value) };

    /// As `into_loose`, as a box.
    final fn into_box(self) -> Option<Box<Self::Value>>
        ensures { MatchOption result (held self ≡ None) (λ value. held self ≡ Some value.value) }
    {
        match self.into_loose() {
            Some(value) => Some(value.into_box()),
            None => None,
        }
    }

    /// Takes the value out, which leaves a null pointer.
    final fn take(&mut self, alloc: Global) -> Option<Box<Self::Value>>
        ensures value { MatchOption result (held self.old ≡ None) (λ value. held self.old ≡ Some value.value) }
        ensures closed { held self.new ≡ None }
    {
        replace(self, Self::closed(alloc)).into_box()
    }

    /// Puts a value in. The old value is dropped.
    final fn put(&mut self, value: Box<Self::Value>)
        ensures { held self.new ≡ Some value.value }
    {
        drop(replace(self, Self::holding(Loose::of(value))).into_box());
    }

    /// Whether there is a value.
    final fn is_open(&mut self, alloc: Global) -> bool
        ensures open { result ≡ is_some (held self.old) }
        ensures same { held self.new ≡ held self.old }
    {
        match self.take(alloc) {
            Some(value) => {
                self.put(value);
                true
            }
            None => false,
        }
    }
}

/// A pointer to a desk of its own, or a null pointer for a closed handle. For C it is a struct with one pointer, which
/// C never dereferences.
#[repr(C)]
pub struct JipHandle {
    at: *mut u8,
    alloc: Global,
    pub ghost held: { Maybe desk_row.Denot } by { coded_option desk_row.coded },
}

impl Model for JipHandle {
    ghost also_owns = { λ h. holds desk_row h.alloc h.at h.held };
}

// It owns the box of a desk, and a desk can be sent to another thread.
unsafe impl Send for JipHandle {}

impl Holder for JipHandle {
    type Value = Desk;

    ghost held = { λ h. h.held };

    fn closed(alloc: Global) -> JipHandle {
        JipHandle {
            at: null_mut(),
            alloc,
        }
    }

    fn holding(value: Loose<Desk, Global>) -> JipHandle
        ensures { result.held ≡ Some value.value }
    {
        let Loose { at, alloc } = value;
        JipHandle {
            at: at as *mut u8,
            alloc,
        }
    }

    fn into_loose(self) -> Option<Loose<Desk, Global>> {
        let JipHandle { at, alloc } = self;
        if at.is_null() {
            None
        } else {
            Some(Loose {
                at: at as *mut Desk,
                alloc,
            })
        }
    }
}

/// A pointer to a salvage of its own, or a null pointer for a closed one. For C it is a struct with one pointer, which
/// C never dereferences.
#[repr(C)]
pub struct JipSalvage {
    at: *mut u8,
    alloc: Global,
    pub ghost held: { Maybe salvage_row.Denot } by { coded_option salvage_row.coded },
}

impl Model for JipSalvage {
    ghost also_owns = { λ h. holds salvage_row h.alloc h.at h.held };
}

// It owns the box of a salvage, which can be sent to another thread.
unsafe impl Send for JipSalvage {}

impl Holder for JipSalvage {
    type Value = Salvage;

    ghost held = { λ h. h.held };

    fn closed(alloc: Global) -> JipSalvage {
        JipSalvage {
            at: null_mut(),
            alloc,
        }
    }

    fn holding(value: Loose<Salvage, Global>) -> JipSalvage
        ensures { result.held ≡ Some value.value }
    {
        let Loose { at, alloc } = value;
        JipSalvage {
            at: at as *mut u8,
            alloc,
        }
    }

    fn into_loose(self) -> Option<Loose<Salvage, Global>> {
        let JipSalvage { at, alloc } = self;
        if at.is_null() {
            None
        } else {
            Some(Loose {
                at: at as *mut Salvage,
                alloc,
            })
        }
    }
}
