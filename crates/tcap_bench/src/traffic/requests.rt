//! The requests of the user.

use super::lot::Lot;
use tcap_component::{Body, Code, Problem};
use tcap_engine::{
    AbortRequest, AbortWhy, Address, BeginRequest, CancelRequest, ContinueRequest, EndRequest,
    Ending, ErrorRequest, InvokeRequest, RejectRequest, Request, ResultRequest, UniRequest,
};
use tcap_invocation::Class;

/// A Begin to this address, without context or information.
pub(super) fn begin(to: &Address) -> Request<'_> {
    Request::Begin(BeginRequest {
        to,
        context: None,
        info: &[],
    })
}

/// A parameter: an octet string.
const PARAMETER: [u8; 6] = [0x04, 0x04, 0x55, 0x66, 0x77, 0x88];

/// A parameter, or none.
fn parameter(lot: &mut Lot) -> Option<&'static [u8]> {
    if lot.below(2) == 0 {
        Some(&PARAMETER)
    } else {
        None
    }
}

/// A body, or none.
fn body(lot: &mut Lot) -> Option<Body<'static>> {
    let parameter = parameter(lot)?;
    Some(Body {
        code: Code::Local(10),
        parameter: Some(parameter),
    })
}

/// An Invoke of any class. Turns take a millisecond in the mean, so a dialogue is drawn some 24 times at most
/// until the invocation lapses.
pub(super) fn invoke(lot: &mut Lot, dialogues: u32) -> Request<'static> {
    let class = match lot.below(4) {
        0 => Class::One,
        1 => Class::Two,
        2 => Class::Three,
        _ => Class::Four,
    };
    let longest = dialogues.saturating_mul(24);
    Request::Invoke(InvokeRequest {
        id: lot.id(),
        class,
        code: Code::Local(10),
        parameter: parameter(lot),
        linked: None,
        timeout_ms: lot.below(longest) as u64 + 1,
    })
}

/// A request on components, but for an Invoke.
fn answer(lot: &mut Lot) -> Request<'static> {
    let id = lot.id();
    match lot.below(5) {
        0 => Request::ResultLast(ResultRequest {
            id,
            body: body(lot),
        }),
        1 => Request::ResultMore(ResultRequest {
            id,
            body: body(lot),
        }),
        2 => Request::ErrorBack(ErrorRequest {
            id,
            code: Code::Local(5),
            parameter: parameter(lot),
        }),
        3 => Request::Reject(RejectRequest {
            id: Some(id),
            problem: Problem::unexpected_result(),
        }),
        _ => Request::Cancel(CancelRequest { id }),
    }
}

/// A request of this kind that ends a dialogue, or one that no dialogue has any more.
fn ending(kind: u32, to: &Address) -> Request<'_> {
    match kind {
        0 => Request::End(EndRequest {
            ending: Ending::Basic,
            context: None,
            info: &[],
        }),
        1 => Request::End(EndRequest {
            ending: Ending::Prearranged,
            context: None,
            info: &[],
        }),
        2 => Request::Abort(AbortRequest {
            why: AbortWhy::User,
            info: &[],
        }),
        3 => Request::Uni(UniRequest {
            to,
            context: None,
            info: &[],
        }),
        _ => begin(to),
    }
}

/// A request of any kind; what has a destination goes to this address.
pub(super) fn any<'a>(lot: &mut Lot, dialogues: u32, to: &'a Address) -> Request<'a> {
    let drawn = lot.below(12);
    if drawn > 10 {
        let kind = lot.below(5);
        return ending(kind, to);
    }
    match drawn {
        0..=2 => invoke(lot, dialogues),
        3..=5 => Request::Continue(ContinueRequest {
            context: None,
            info: &[],
        }),
        _ => answer(lot),
    }
}
