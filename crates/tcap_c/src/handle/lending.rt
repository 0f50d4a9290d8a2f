//! The station of a handle, which is lent for the time of a call.

ghost use Rattle.std.specs.Prelude.{◌≡◌, true};
ghost use Rattle.std.specs.Borrow.{sem};
ghost use Rattle.tcap_c.specs.Lending.{lends_station};

use super::Handle;
use std::alloc::Global;
use tcap_station::Station;

impl Handle {
    /// The station of an open handle, in its place on the heap.
    #[inline(always)]
    pub(crate) fn station(&mut self) -> &mut Station<Global>
        requires { self.old.is_open ≡ true }
        ensures* writes_back { sem 𝓛 (lends_station self.entry result) }
        ensures value { result.now ≡ self.old.value }
    {
        unsafe { &mut *(self.at as *mut Station<Global>) }
    }
}
