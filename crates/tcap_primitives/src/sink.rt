//! Where the outputs of a call go: what is told, and messages, each written where it is kept.

// Hints to inline: each step of an engine runs through it; docs/PERF.md says what the whole of it inlined gains.

pub mod taken;

ghost use Rattle.std.specs.Prelude.{◌≡◌, ◌+◌, ◌-◌, ◌^◌, ◌≤◌, ◌<◌, ◌++◌, ◌∷◌, [], None, true, false, Bool, Option, length, map, vec_len, vec_capacity, OnOk, OnErr};
ghost use Rattle.ber_core.specs.Place.{Slice};
ghost use Rattle.tcap_model.specs.Words.Output as model;
ghost use Rattle.tcap_pdu.specs.FrameMeasured.{IsMeasured};
ghost use Rattle.tcap_pdu.specs.FrameViews.{message};
ghost use Rattle.tcap_pdu.specs.FrameWritten.{written_frame};
ghost use Rattle.tcap_primitives.specs.IndicationViews.{indicated, indicated_octets, indicated_slices};
ghost use Rattle.tcap_primitives.specs.OutputViews.{all_shown};
ghost use Rattle.tcap_primitives.specs.SendingViews.{sending_view};
ghost use Rattle.tcap_primitives.specs.Slices.{LieIn, LieInPlace, Slices, slices_of};
ghost use Rattle.tcap_primitives.specs.declared.indication.Indication.TheVariants as indication;

use crate::outbox::Outbox;
use crate::output::Output;
use crate::sending::outgoing::Outgoing;
use std::alloc::{AllocError, Allocator};
use std::marker::{Model, PhantomData};
use std::mem;
use tcap_address::Address;
use tcap_component::{Body, Code};
use tcap_pdu::{Frame, MessageLength, append_frame};

/// Which of the two a sink is.
pub trait SinkKind {
    ghost TO_OUTBOX: { Bool };

    /// Whether it is an outbox.
    const TO_OUTBOX: bool;
}

/// A vector, whose outputs have slices of the message that was received.
pub struct ToVector;

impl SinkKind for ToVector {
    ghost TO_OUTBOX = { false };

    const TO_OUTBOX: bool = false;
}

/// An outbox, which keeps the octets that its outputs name.
pub struct ToOutbox;

impl SinkKind for ToOutbox {
    ghost TO_OUTBOX = { true };

    const TO_OUTBOX: bool = true;
}

/// Where the outputs of a call go, in order: a vector or an outbox, by its kind. All room is made before anything is
/// told.
// The kind is known where a call is compiled, so that each of its two copies has one way alone. A trait with both as
// its implementations says the same; the toolchain doesn't take a type argument that holds a lifetime beside an
// allocator.
#[derive(Drop)]
pub struct Sink<'m, A: Allocator + Copy, K: SinkKind> {
    pub(crate) vector: Vec<Output<'m, A>, A>,
    pub(crate) outbox: Outbox<A>,
    kind: PhantomData<K>,
}

impl<'m, A: Allocator + Copy, K: SinkKind> Model for Sink<'m, A, K> {
    ghost use Rattle.tcap_primitives.specs.SinkViews.{Filled, filled_by};

    ghost Value = { Filled };

    ghost view = { λ s. filled_by K.TO_OUTBOX s.vector s.outbox };
}

impl<'m, A: Allocator + Copy> Sink<'m, A, ToVector> {
    /// A vector, which takes no memory yet.
    #[inline(always)]
    pub fn vector(alloc: A) -> Self
        ensures outputs { result.outputs ≡ [] }
        ensures slices { result.slices ≡ [] }
        ensures places { result.places ≡ 0 }
    {
        Sink {
            vector: Vec::new(alloc),
            outbox: Outbox::new(alloc),
            kind: PhantomData,
        }
    }

    /// The vector.
    // The outbox of such a sink has no memory, since each call of such a sink writes to its own half alone: to look for
    // it took 12 instructions a step.
    #[inline(always)]
    pub fn into_vector(self) -> Vec<Output<'m, A>, A>
        ensures outputs { all_shown result.items ≡ self.entry.outputs }
        ensures slices { map slices_of result.items ≡ self.entry.slices }
        ensures room { vec_capacity result - vec_len result ≡ self.entry.places }
    {
        let Sink {
            vector,
            outbox,
            kind: _kind,
        } = self;
        mem::forget(outbox);
        vector
    }
}

// All of it is copied to its caller: the output is built in its place.
impl<'m, A: Allocator + Copy, K: SinkKind> Sink<'m, A, K> {
    /// Makes places for so many outputs, whose indications name so many octets. Nothing takes no memory.
    #[inline(always)]
    pub fn reserve(&mut self, count: usize, octets: usize) -> Result<(), AllocError>
        ensures same { self.new.outputs ≡ self.old.outputs }
        ensures slices { self.new.slices ≡ self.old.slices }
        ensures places { self.old.places ≤ self.new.places }
        ensures count { OnOk result (count ≤ self.new.places) }
        ensures octets { OnOk result (octets ≤ self.new.octets) }
        // More than memory can hold is refused.
        ensures within { OnOk result ((count < 2 ^ 63) × (octets < 2 ^ 64 - 1)) }
        ensures memory { OnErr result (0 < count + octets) }
    {
        if K::TO_OUTBOX {
            return self.outbox.reserve(count, octets);
        }
        // No slice is so long. A vector needs no room for octets, and says so of all other numbers.
        if octets == usize::MAX {
            return Err(AllocError);
        }
        // It is made for one call, and takes what this needs.
        self.vector.reserve_exact(count)
    }

    /// Appends a TC-INVOKE indication, for which there is room.
    // The components that come most have a call of their own: by `tell`, which has all kinds in it, the caller would
    // grow beyond what the toolchain inlines, and a component took 160 instructions more.
    #[inline(always)]
    pub fn tell_invoked(
        &mut self,
        dialogue: Option<u32>,
        id: i8,
        linked: Option<i8>,
        code: Code<'m>,
        parameter: Option<&'m [u8]>,
    )
        requires place { 1 ≤ self.old.places }
        requires octets { indicated_octets (indication.Invoked dialogue id linked code parameter) ≤ self.old.octets }
        ensures told { self.new.outputs ≡ self.old.outputs
            ++ indicated (indication.Invoked dialogue id linked code.entry parameter.entry) ∷ [] }
        ensures places { self.old.places ≤ self.new.places + 1 }
        ensures octets { self.old.octets ≤ self.new.octets
            + indicated_octets (indication.Invoked dialogue id linked code.entry parameter.entry) }
        ensures place { (portion : Option Slice) (components : Slice) → LieIn portion components
            (indicated_slices (indication.Invoked dialogue id linked code.entry parameter.entry))
            → LieInPlace portion components self.old.slices → LieInPlace portion components self.new.slices }
    {
        if K::TO_OUTBOX {
            self.outbox
                .tell_invoked(dialogue, id, linked, code, parameter);
        } else {
            self.vector.push_reserved(Output::Invoked {
                dialogue,
                id,
                linked,
                code,
                parameter,
            });
        }
    }

    /// Appends a TC-RESULT-L indication, for which there is room.
    #[inline(always)]
    pub fn tell_result_last(&mut self, dialogue: u32, number: u64, id: i8, body: Option<Body<'m>>)
        requires place { 1 ≤ self.old.places }
        requires octets { indicated_octets (indication.ResultLast dialogue number id body) ≤ self.old.octets }
        ensures told { self.new.outputs ≡ self.old.outputs
            ++ indicated (indication.ResultLast dialogue number id body.entry) ∷ [] }
        ensures places { self.old.places ≤ self.new.places + 1 }
        ensures octets { self.old.octets ≤ self.new.octets
            + indicated_octets (indication.ResultLast dialogue number id body.entry) }
        ensures place { (portion : Option Slice) (components : Slice) → LieIn portion components
            (indicated_slices (indication.ResultLast dialogue number id body.entry))
            → LieInPlace portion components self.old.slices → LieInPlace portion components self.new.slices }
    {
        if K::TO_OUTBOX {
            self.outbox.tell_result_last(dialogue, number, id, body);
        } else {
            self.vector.push_reserved(Output::ResultLast {
                dialogue,
                number,
                id,
                body,
            });
        }
    }
}

// Each message is inlined into its caller. A Begin to a short address, a Continue and an End without a dialogue PDU go
// by `send_frame`: by `send`, which has all kinds in it, their callers would grow beyond what the toolchain inlines:
// then a message took some 200 instructions more.
impl<'m, A: Allocator + Copy, K: SinkKind> Sink<'m, A, K> {
    /// Writes a message that goes to this address, of at most 255 octets, with places for so many outputs more.
    #[inline(always)]
    pub fn send(&mut self, to: &[u8], message: &Outgoing<'_>, more: usize) -> Result<(), AllocError>
        requires to { length to.now ≤ 255 }
        ensures ok { OnOk result (self.new.outputs ≡ self.old.outputs
            ++ model.Output.send to.now (written_frame (sending_view message.now.sending)) ∷ []) }
        ensures err { OnErr result (self.new.outputs ≡ self.old.outputs) }
        ensures places { OnOk result (self.old.places ≤ self.new.places + 1) }
        ensures more { OnOk result (more ≤ self.new.places) }
        ensures within { OnOk result (more < 2 ^ 63) }
        ensures place { (portion : Option Slice) (components : Slice)
            → LieInPlace portion components self.old.slices → LieInPlace portion components self.new.slices }
    {
        self.reserve(more.saturating_add(1), 0)?;
        if K::TO_OUTBOX {
            return self.outbox.send(to, message);
        }
        let mut bytes = Vec::with_capacity(*self.vector.allocator(), message.len())?;
        message.append(&mut bytes);
        push_sent(&mut self.vector, to, bytes);
        Ok(())
    }

    /// Writes a message as it stands, which is so long, and goes to this address, of at most 255 octets, with places
    /// for so many outputs more.
    #[inline(always)]
    pub fn send_frame(
        &mut self,
        to: &[u8],
        frame: &Frame<'_>,
        len: MessageLength,
        more: usize,
    ) -> Result<(), AllocError>
        requires to { length to.now ≤ 255 }
        requires measured { IsMeasured len (message frame.now) None }
        ensures ok { OnOk result (self.new.outputs ≡ self.old.outputs
            ++ model.Output.send to.now (written_frame (message frame.now)) ∷ []) }
        ensures err { OnErr result (self.new.outputs ≡ self.old.outputs) }
        ensures places { OnOk result (self.old.places ≤ self.new.places + 1) }
        ensures more { OnOk result (more ≤ self.new.places) }
        ensures within { OnOk result (more < 2 ^ 63) }
        ensures place { (portion : Option Slice) (components : Slice)
            → LieInPlace portion components self.old.slices → LieInPlace portion components self.new.slices }
    {
        let count = more.saturating_add(1);
        self.reserve(count, 0)?;
        if K::TO_OUTBOX {
            return self.outbox.send_frame(to, frame, len);
        }
        let mut bytes = Vec::with_capacity(*self.vector.allocator(), len.octets())?;
        append_frame(&mut bytes, frame, len);
        push_sent(&mut self.vector, to, bytes);
        Ok(())
    }
}

/// Appends a message that is sent to this address, of at most 255 octets, for which there is a place.
// The address is written where the output stands: one that was made before was copied twice, 256 octets each time, 50
// instructions a message.
#[inline(always)]
fn push_sent<'m, A: Allocator + Copy>(
    vector: &mut Vec<Output<'m, A>, A>,
    to: &[u8],
    bytes: Vec<u8, A>,
)
    requires to { length to.now ≤ 255 }
    requires place { vec_len vector.old < vec_capacity vector.old }
    ensures outputs { all_shown vector.new.items
        ≡ all_shown vector.old.items ++ model.Output.send to.now bytes.items ∷ [] }
    ensures slices { map slices_of vector.new.items ≡ map slices_of vector.old.items ++ Slices.none ∷ [] }
    ensures len { vec_len vector.new ≡ vec_len vector.old + 1 }
    ensures capacity { vec_capacity vector.new ≡ vec_capacity vector.old }
{
    vector.push_reserved(Output::Send {
        to: Address::empty(),
        bytes,
    });
    let last = vector.len() - 1;
    if let Output::Send { to: kept, .. } = &mut vector[last] {
        kept.hold(to);
    }
}
