//! Requests that are drawn by lot.

use std::alloc::Global;
use tcap_component::{Body, Code, Kind, Problem};
use tcap_engine::{
    AbortRequest, AbortWhy, Address, BeginRequest, CancelRequest, ContinueRequest, EndRequest,
    Ending, ErrorRequest, InvokeRequest, RejectRequest, Request, ResultRequest, State, UniRequest,
};
use tcap_invocation::Class;

/// A row of numbers that look drawn by lot.
#[derive(Drop)]
pub(super) struct Lot(pub(super) u64);

impl Lot {
    /// Any number of 32 bits.
    fn number(&mut self) -> u32 {
        let Lot(seed) = self;
        *seed = seed
            .wrapping_mul(6_364_136_223_846_793_005)
            .wrapping_add(1_442_695_040_888_963_407);
        (*seed >> 32) as u32
    }

    /// A number below another; 0 where there is none.
    pub(super) fn below(&mut self, most: u32) -> u32 {
        ((u64::from(self.number()) * u64::from(most)) >> 32) as u32
    }

    /// A place in a list of so many; 0 where it is empty.
    pub(super) fn place(&mut self, count: usize) -> usize {
        self.below(u32::try_from(count).unwrap_or(u32::MAX)) as usize
    }

    /// An octet.
    pub(super) fn octet(&mut self) -> u8 {
        let [octet, ..] = self.number().to_be_bytes();
        octet
    }

    /// Whether one case in so many comes.
    pub(super) fn is_one_in(&mut self, most: u32) -> bool {
        self.below(most) == 0
    }
}

/// What requests are made of.
#[derive(Drop)]
pub(super) struct Parts {
    short: [u8; 3],
    long: Vec<u8>,
    context: [u8; 7],
    near: Address,
    far: Address,
}

impl Parts {
    /// Parameters of 3 and of 304 octets, a context, and addresses of no octet and of 40.
    pub(super) fn new(alloc: Global) -> Option<Parts> {
        let mut long = Vec::new(alloc);
        for octet in [0x04, 0x82, 0x01, 0x2c] {
            long.push(octet).ok()?;
        }
        long.resize(304, 0).ok()?;
        Some(Parts {
            short: [0x04, 1, 7],
            long,
            context: [0x04, 0, 0, 1, 0, 1, 3],
            near: Address::empty(),
            far: Address::new(&[7; 40])?,
        })
    }

    /// An address.
    pub(super) fn address(&self, lot: &mut Lot) -> &Address {
        if lot.is_one_in(2) {
            &self.near
        } else {
            &self.far
        }
    }

    /// A parameter, or none.
    fn parameter(&self, lot: &mut Lot) -> Option<&[u8]> {
        match lot.below(8) {
            0 => Some(self.long.as_slice()),
            1..=4 => Some(&self.short),
            _ => None,
        }
    }

    /// A context, or none.
    fn context(&self, lot: &mut Lot) -> Option<&[u8]> {
        lot.is_one_in(2).then_some(self.context.as_slice())
    }
}

/// An Invoke.
fn draw_invoke<'p>(lot: &mut Lot, parts: &'p Parts, id: i8) -> Request<'p> {
    let class = match lot.below(4) {
        0 => Class::Two,
        1 => Class::Three,
        2 => Class::Four,
        _ => Class::One,
    };
    Request::Invoke(InvokeRequest {
        id,
        class,
        code: Code::Local(i32::try_from(lot.below(200)).unwrap_or(0)),
        parameter: parts.parameter(lot),
        linked: if lot.is_one_in(8) { Some(1) } else { None },
        timeout_ms: u64::from(lot.below(1_500)),
    })
}

/// An answer to an Invoke, or its invocation given up.
fn draw_answer<'p>(lot: &mut Lot, parts: &'p Parts, id: i8) -> Request<'p> {
    let code = Code::Local(1);
    let parameter = parts.parameter(lot);
    let body = if lot.is_one_in(2) {
        Some(Body { code, parameter })
    } else {
        None
    };
    match (lot.below(8), Problem::new(Kind::Result, 2)) {
        (0, Some(problem)) => Request::Reject(RejectRequest {
            id: Some(id),
            problem,
        }),
        (1, _) => Request::Cancel(CancelRequest { id }),
        (2, _) => Request::ErrorBack(ErrorRequest {
            id,
            code,
            parameter,
        }),
        (3, _) => Request::ResultMore(ResultRequest { id, body }),
        _ => Request::ResultLast(ResultRequest { id, body }),
    }
}

/// A request with which a dialogue begins.
fn draw_opening<'p>(lot: &mut Lot, parts: &'p Parts) -> Request<'p> {
    let to = parts.address(lot);
    let context = parts.context(lot);
    let info: &[u8] = &[];
    if lot.is_one_in(16) {
        return Request::Uni(UniRequest { to, context, info });
    }
    Request::Begin(BeginRequest { to, context, info })
}

/// A request with which a dialogue goes on or ends.
fn draw_going_on<'p>(lot: &mut Lot, parts: &'p Parts) -> Request<'p> {
    let context = if lot.is_one_in(16) {
        parts.context(lot)
    } else {
        None
    };
    let info: &[u8] = &[];
    let why = AbortWhy::User;
    let ending = if lot.is_one_in(4) {
        Ending::Prearranged
    } else {
        Ending::Basic
    };
    match lot.below(16) {
        0 => Request::Abort(AbortRequest { why, info }),
        1..=2 => Request::End(EndRequest {
            ending,
            context,
            info,
        }),
        _ => Request::Continue(ContinueRequest { context, info }),
    }
}

/// A request on a dialogue in this state: mostly one that it takes.
pub(super) fn draw_request<'p>(
    lot: &mut Lot,
    parts: &'p Parts,
    state: Option<State>,
) -> Request<'p> {
    let id = i8::try_from(lot.below(3)).unwrap_or(0);
    match (lot.below(8), state) {
        (0..=2, Some(_)) => draw_invoke(lot, parts, id),
        (3..=5, Some(State::Received | State::Active)) => draw_answer(lot, parts, id),
        (3..=6, Some(State::Fresh)) => draw_opening(lot, parts),
        (6, _) => draw_going_on(lot, parts),
        (7, Some(State::Received | State::Active)) => draw_going_on(lot, parts),
        (_, Some(State::Sent)) => draw_invoke(lot, parts, id),
        (0, None) => draw_opening(lot, parts),
        _ => draw_answer(lot, parts, id),
    }
}
