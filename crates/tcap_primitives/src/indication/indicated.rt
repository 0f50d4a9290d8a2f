//! What an indication tells: the output, how many octets it names, and how it is told to a sink.

// Hints to inline: each step of an engine runs through it; docs/PERF.md says what the whole of it inlined gains.

ghost use Rattle.std.specs.Prelude.{◌≡◌, ◌+◌, ◌≤◌, ◌<◌, ◌^◌, ◌++◌, ◌∷◌, [], Option};
ghost use Rattle.ber_core.specs.Place.{Slice};
ghost use Rattle.tcap_primitives.specs.IndicationViews.{body_octets, code_octets, indicated, indicated_octets, indicated_slices, optional_octets, pdu_octets};
ghost use Rattle.tcap_primitives.specs.OutputViews.{shown};
ghost use Rattle.tcap_primitives.specs.Slices.{LieIn, LieInPlace, slices_of};

use super::Indication;
use crate::output::Output;
use crate::sink::{Sink, SinkKind};
use std::alloc::Allocator;
use tcap_component::{Body, Code};
use tcap_pdu::DialoguePdu;

/// How many octets there are, if any.
#[inline(always)]
fn optional_octets(octets: Option<&[u8]>) -> usize
    ensures value { result ≡ optional_octets octets.entry }
    ensures within { result < 2 ^ 63 }
{
    octets.map_or(0, |octets| octets.len())
}

/// How many octets a code has apart from its number.
#[inline(always)]
fn code_octets(code: &Code<'_>) -> usize
    ensures value { result ≡ code_octets code.now }
    ensures within { result < 2 ^ 63 }
{
    match code {
        Code::Local(_) => 0,
        Code::Global(octets) => octets.len(),
    }
}

/// How many octets the body of a result names, if there is one.
#[inline(always)]
fn body_octets(body: &Option<Body<'_>>) -> usize
    ensures { result ≡ body_octets body.now }
{
    match body {
        None => 0,
        Some(body) => code_octets(&body.code) + optional_octets(body.parameter),
    }
}

/// How many octets a dialogue PDU names, if there is one.
#[inline(always)]
fn pdu_octets(pdu: &Option<DialoguePdu<'_>>) -> usize
    ensures { result ≡ pdu_octets pdu.now }
{
    match pdu {
        None => 0,
        Some(
            DialoguePdu::Aarq { context, info, .. }
            | DialoguePdu::Audt { context, info, .. }
            | DialoguePdu::Aare { context, info, .. },
        ) => context.len() + info.len(),
        Some(DialoguePdu::Abrt { info, .. }) => info.len(),
        Some(DialoguePdu::Foreign { external }) => external.len(),
    }
}

impl<'m> Indication<'m> {
    /// The output that tells it.
    // Where the indication is known, the match on it folds away, and the output is built in its place.
    #[inline(always)]
    pub fn output<A: Allocator>(self) -> Output<'m, A>
        ensures told { shown result ≡ indicated self.entry }
        ensures slices { slices_of result ≡ indicated_slices self.entry }
    {
        match self {
            Indication::Uni { context, info } => Output::Uni { context, info },
            Indication::Begin {
                dialogue,
                context,
                info,
            } => Output::Begin {
                dialogue,
                context,
                info,
            },
            Indication::Continue {
                dialogue,
                context,
                info,
            } => Output::Continue {
                dialogue,
                context,
                info,
            },
            Indication::End {
                dialogue,
                context,
                info,
            } => Output::End {
                dialogue,
                context,
                info,
            },
            Indication::UAbort { dialogue, pdu } => Output::UAbort { dialogue, pdu },
            Indication::PAbort { dialogue, why } => Output::PAbort { dialogue, why },
            Indication::Invoked {
                dialogue,
                id,
                linked,
                code,
                parameter,
            } => Output::Invoked {
                dialogue,
                id,
                linked,
                code,
                parameter,
            },
            Indication::ResultMore {
                dialogue,
                number,
                id,
                body,
            } => Output::ResultMore {
                dialogue,
                number,
                id,
                body,
            },
            Indication::LocalReject {
                dialogue,
                id,
                problem,
            } => Output::LocalReject {
                dialogue,
                id,
                problem,
            },
            Indication::RemoteReject {
                dialogue,
                id,
                problem,
                by,
            } => Output::RemoteReject {
                dialogue,
                id,
                problem,
                by,
            },
            Indication::ResultLast {
                dialogue,
                number,
                id,
                body,
            } => Output::ResultLast {
                dialogue,
                number,
                id,
                body,
            },
            Indication::ErrorBack {
                dialogue,
                number,
                id,
                code,
                parameter,
            } => Output::ErrorBack {
                dialogue,
                number,
                id,
                code,
                parameter,
            },
            Indication::Rejected {
                dialogue,
                number,
                id,
                problem,
                by,
            } => Output::Rejected {
                dialogue,
                number,
                id,
                problem,
                by,
            },
            Indication::Lapsed {
                dialogue,
                number,
                id,
            } => Output::Lapsed {
                dialogue,
                number,
                id,
            },
            Indication::Ended {
                dialogue,
                number,
                id,
            } => Output::Ended {
                dialogue,
                number,
                id,
            },
            Indication::Dropped(why) => Output::Dropped(why),
        }
    }

    /// How many octets it names: those of its slices. It takes no memory.
    #[inline(always)]
    pub fn octet_count(&self) -> usize
        ensures { result ≡ indicated_octets self.now }
    {
        match self {
            Indication::Uni { context, info }
            | Indication::Begin { context, info, .. }
            | Indication::Continue { context, info, .. }
            | Indication::End { context, info, .. } => optional_octets(*context) + info.len(),
            Indication::UAbort { pdu, .. } => pdu_octets(pdu),
            Indication::Invoked {
                code,
                parameter,
                ..
            }
            | Indication::ErrorBack {
                code,
                parameter,
                ..
            } => code_octets(code) + optional_octets(*parameter),
            Indication::ResultMore { body, .. } | Indication::ResultLast { body, .. } => {
                body_octets(body)
            }
            Indication::PAbort { .. }
            | Indication::LocalReject { .. }
            | Indication::RemoteReject { .. }
            | Indication::Rejected { .. }
            | Indication::Lapsed { .. }
            | Indication::Ended { .. }
            | Indication::Dropped(_) => 0,
        }
    }
}

impl<'m, A: Allocator + Copy, K: SinkKind> Sink<'m, A, K> {
    /// Appends an indication, for which there is room.
    #[inline(always)]
    pub fn tell(&mut self, indication: Indication<'m>)
        requires place { 1 ≤ self.old.places }
        requires octets { indicated_octets indication ≤ self.old.octets }
        ensures told { self.new.outputs ≡ self.old.outputs ++ indicated indication.entry ∷ [] }
        ensures places { self.old.places ≤ self.new.places + 1 }
        ensures octets { self.old.octets ≤ self.new.octets + indicated_octets indication.entry }
        ensures place { (portion : Option Slice) (components : Slice)
            → LieIn portion components (indicated_slices indication.entry)
            → LieInPlace portion components self.old.slices → LieInPlace portion components self.new.slices }
    {
        if K::TO_OUTBOX {
            self.outbox.tell(indication);
        } else {
            self.vector.push_reserved(indication.output());
        }
    }
}
