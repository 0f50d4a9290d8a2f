//! Requests with a dialogue portion.

ghost use Rattle.std.specs.Prelude.{◌≡◌, ℕ, List, option_map};
ghost use Rattle.tcap_primitives.specs.RequestViews.{request_view};
ghost use Rattle.tcap_play.specs.LineViews.{text_of};
ghost use Rattle.tcap_play.specs.ScriptWords.{named_address};
ghost use Rattle.tcap_living.specs.LiveLine.{answering_request_of, opening_request_of};

use crate::context::Context;
use std::alloc::Allocator;
use tcap_dialogue::{
    Address, BeginRequest, ContinueRequest, EndRequest, Ending, Request, UniRequest,
};
use tcap_play::script::values::{is, octets};
use tcap_play::script::word::Word;

/// A request that opens an exchange with the address of a word that names one.
pub(crate) fn opening_request<'w, A: Allocator>(
    name: &[u8],
    to: &'w Option<Address>,
    context: &'w Context<'_, A>,
    information: &'w Word<'_, A>,
) -> Option<Request<'w>>
    ensures { (word : List ℕ) → to.entry.now ≡ named_address word → option_map request_view result
        ≡ opening_request_of name.now word (text_of context.entry.now.word) (text_of information.entry.now) }
{
    let Some(to) = to else {
        return None;
    };
    let context = context.octets()?;
    let info = octets(information)?;
    if is(name, "begin") {
        Some(Request::Begin(BeginRequest { to, context, info }))
    } else if is(name, "uni") {
        Some(Request::Uni(UniRequest { to, context, info }))
    } else {
        None
    }
}

/// A request on a dialogue that has a peer.
pub(crate) fn answering_request<'w, A: Allocator>(
    name: &[u8],
    context: &'w Context<'_, A>,
    information: &'w Word<'_, A>,
) -> Option<Request<'w>>
    ensures { option_map request_view result
        ≡ answering_request_of name.now (text_of context.entry.now.word) (text_of information.entry.now) }
{
    let context = context.octets()?;
    let info = octets(information)?;
    if is(name, "continue") {
        Some(Request::Continue(ContinueRequest { context, info }))
    } else if is(name, "end") {
        let ending = Ending::Basic;
        Some(Request::End(EndRequest {
            ending,
            context,
            info,
        }))
    } else {
        None
    }
}
