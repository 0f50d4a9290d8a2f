//! What C holds: a station on the heap, or nothing.

mod lending;

ghost use Rattle.std.specs.Prelude.{◌≡◌, true, false, MatchOption};
ghost use Rattle.tcap_station.specs.Station.{StationState};
ghost use Rattle.tcap_c.specs.Handle.{handle_owns, station_coded};

use crate::box_parts::BoxParts;
use std::alloc::Global;
use std::marker::Model;
use std::{mem, ptr};
use tcap_station::Station;

/// A station, if it is open. C keeps the variable, all zero before it is opened (our own).
#[repr(C)]
#[derive(Drop)]
pub struct Handle {
    at: *mut u8,
    alloc: Global,
    pub is_open: bool,
    pub ghost value: { StationState } by { station_coded },
}

impl Model for Handle {
    ghost also_owns = { λ h. handle_owns h.is_open h.alloc h.at h.value };
}

impl Handle {
    /// The station, which leaves the handle closed; `None` where it is closed.
    pub(crate) fn take(&mut self, alloc: Global) -> Option<Box<Station<Global>>>
        ensures value { MatchOption result ((self.old.is_open ≡ false) × (self.new ≡ self.old))
            (λ station. (self.old.is_open ≡ true) × (station.value ≡ self.old.value)) }
        ensures closed { self.new.is_open ≡ false }
    {
        if !self.is_open() {
            return None;
        }
        let open = mem::replace(self, Handle::closed(alloc));
        Some(open.into_parts().into_box())
    }

    /// Puts a station into a closed handle.
    pub(crate) fn put(&mut self, station: Box<Station<Global>>)
        requires { self.old.is_open ≡ false }
        ensures { (self.new.is_open ≡ true) × (self.new.value ≡ station.value) }
    {
        *self = Handle::of_parts(BoxParts::of(station));
    }

    /// Whether it is open.
    pub(crate) fn is_open(&mut self) -> bool
        ensures { (result ≡ self.old.is_open) × (self.new ≡ self.old) }
    {
        self.is_open
    }

    /// An open handle, which owns what the parts of a box owned.
    fn of_parts(parts: BoxParts<Station<Global>, Global>) -> Handle
        ensures { (result.is_open ≡ true) × (result.value ≡ parts.value) }
    {
        let BoxParts { at, alloc } = parts;
        Handle {
            at: at as *mut u8,
            alloc,
            is_open: true,
        }
    }

    /// The parts of the box that an open handle owned.
    fn into_parts(self) -> BoxParts<Station<Global>, Global>
        requires { self.is_open ≡ true }
        ensures { result.value ≡ self.value }
    {
        let Handle { at, alloc, .. } = self;
        BoxParts {
            at: at as *mut Station<Global>,
            alloc,
        }
    }

    /// A closed handle.
    fn closed(alloc: Global) -> Handle
        ensures { result.is_open ≡ false }
    {
        Handle {
            at: ptr::null_mut(),
            alloc,
            is_open: false,
        }
    }
}

unsafe impl Send for Handle {}
