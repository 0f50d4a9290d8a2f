//! The calls that are made of `Invocations` and of the plain list, drawn by lot.

use super::plain::Plain;
use tcap_component::Kind;
use tcap_invocation::{Class, MAX_MOMENT};

/// Which call is made.
#[derive(Clone, Copy)]
pub(super) enum Request {
    Add,
    Sent,
    Result,
    Error,
    Reject,
    GiveUp,
    FreeWait,
    Lapse,
    LapseOne,
    FreeDue,
    CloseOne,
    CloseAll,
}

/// A call, with what any call may be given.
#[derive(Clone, Copy)]
pub(super) struct Call {
    pub(super) request: Request,
    pub(super) id: i8,
    pub(super) number: u64,
    pub(super) class: Class,
    pub(super) timeout: u64,
    pub(super) last: bool,
    pub(super) kind: Kind,
    pub(super) clock: u64,
}

/// An identifier, from -128 on.
pub(super) fn id_at(place: u64) -> i8 {
    i8::try_from(i64::try_from(place).unwrap_or(0).saturating_sub(128)).unwrap_or(0)
}

const CLASSES: [Class; 4] = [Class::One, Class::Two, Class::Three, Class::Four];

const KINDS: [Kind; 4] = [Kind::General, Kind::Invoke, Kind::Result, Kind::Error];

/// What calls are drawn from: a linear generator, how many identifiers there are, the clock, and the
/// number of the last call.
#[derive(Drop)]
pub(super) struct Draws {
    pub(super) seed: u64,
    pub(super) ids: u64,
    pub(super) clock: u64,
    pub(super) number: u64,
}

impl Draws {
    /// A number below this one; 0 where there is none.
    fn below(&mut self, limit: u64) -> u64 {
        self.seed = self
            .seed
            .wrapping_mul(6_364_136_223_846_793_005)
            .wrapping_add(1_442_695_040_888_963_407);
        (self.seed >> 33).checked_rem(limit).unwrap_or(0)
    }

    fn request(&mut self) -> Request {
        match self.below(400) {
            0..120 => Request::Add,
            120..170 => Request::Sent,
            170..215 => Request::Result,
            215..260 => Request::Error,
            260..280 => Request::Reject,
            280..300 => Request::GiveUp,
            300..320 => Request::FreeWait,
            320..340 => Request::Lapse,
            340..370 => Request::LapseOne,
            370..388 => Request::FreeDue,
            388..398 => Request::CloseOne,
            _ => Request::CloseAll,
        }
    }

    /// Mostly short; now and then the longest, or none.
    fn timeout(&mut self) -> u64 {
        match self.below(32) {
            0 => 0,
            1 => MAX_MOMENT + 1,
            2 => MAX_MOMENT,
            _ => self.below(self.ids.saturating_mul(4)).saturating_add(9),
        }
    }

    /// Mostly now; else around the moment of the next timer, or some time before or after now.
    fn moment(&mut self, next: Option<u64>) -> u64 {
        match self.below(16) {
            0 => next.unwrap_or(u64::MAX),
            1 => next.map_or(0, |time| time.saturating_sub(1)),
            2 => self.clock.saturating_add(self.below(100)),
            3 => self.clock.saturating_sub(self.below(100)),
            _ => self.clock,
        }
    }

    /// For `add` any identifier, else mostly one that is due or is in the list.
    fn id(&mut self, plain: &Plain, request: Request) -> i8 {
        let any = id_at(self.below(self.ids));
        let place = self.below(plain.len() as u64);
        match (request, self.below(4)) {
            (Request::Add, _) | (_, 0) => any,
            (Request::LapseOne, _) => plain.first_due(self.clock).map_or(any, |lapse| lapse.id),
            _ => plain.id_at(place as usize).unwrap_or(any),
        }
    }

    /// The next call, at a later moment. Its number is mostly above all before.
    pub(super) fn call(&mut self, plain: &Plain) -> Call {
        self.clock = self.clock.saturating_add(self.below(3));
        self.number = self.number.saturating_add(self.below(3).saturating_add(1));
        let request = self.request();
        Call {
            request,
            id: self.id(plain, request),
            number: self
                .number
                .saturating_sub(self.below(16).saturating_sub(12)),
            class: *CLASSES.get(self.below(4) as usize).unwrap_or(&Class::One),
            timeout: self.timeout(),
            last: self.below(3) > 0,
            kind: *KINDS.get(self.below(4) as usize).unwrap_or(&Kind::General),
            clock: self.moment(plain.next_timer()),
        }
    }
}
