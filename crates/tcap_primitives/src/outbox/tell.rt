//! An outbox takes outputs.

// Hints to inline: each step of an engine runs through it; docs/PERF.md says what the whole of it inlined gains.

ghost use Rattle.std.specs.Prelude.{◌≡◌, ◌+◌, ◌-◌, ◌^◌, ◌≤◌, ◌<◌, ◌++◌, ◌∷◌, [], length, vec_len, vec_capacity, None, OnOk, OnErr};
ghost use Rattle.tcap_model.specs.Words.Output as model;
ghost use Rattle.tcap_pdu.specs.FrameMeasured.{IsMeasured};
ghost use Rattle.tcap_pdu.specs.FrameViews.{message};
ghost use Rattle.tcap_pdu.specs.FrameWritten.{written_frame};
ghost use Rattle.tcap_primitives.specs.IndicationViews.{indicated, indicated_octets};
ghost use Rattle.tcap_primitives.specs.OutboxReading.{part};
ghost use Rattle.tcap_primitives.specs.OutboxSpans.{Fits, HasRoom, most_octets};
ghost use Rattle.tcap_primitives.specs.SendingViews.{sending_view};
ghost use Rattle.tcap_primitives.specs.declared.indication.Indication.TheVariants as indication;

use super::Outbox;
use super::indications::keep_indication;
use super::keeping::{keep, keep_body, keep_operation};
use super::records::{Record, Span};
use super::room::{make_places, make_room};
use crate::indication::Indication;
use crate::sending::outgoing::Outgoing;
use std::alloc::{AllocError, Allocator};
use tcap_component::{Body, Code};
use tcap_pdu::{Frame, MessageLength, append_frame};

impl<A: Allocator + Copy> Outbox<A> {
    /// Makes places for so many outputs, whose indications name so many octets. Nothing takes no memory.
    #[inline(always)]
    pub(crate) fn reserve(&mut self, count: usize, octets: usize) -> Result<(), AllocError>
        ensures same { self.new.outputs ≡ self.old.outputs }
        ensures places { self.old.places ≤ self.new.places }
        ensures count { OnOk result (count ≤ self.new.places) }
        ensures octets { OnOk result (octets ≤ self.new.octets) }
        ensures within { OnOk result ((count < 2 ^ 63) × (octets < 2 ^ 64 - 1)) }
        ensures memory { OnErr result (0 < count + octets) }
    {
        make_places(&mut self.records, count)?;
        make_room(&mut self.octets, octets)
    }

    /// Appends an indication, for which there is room.
    // Where the indication is known, the match on it folds away.
    #[inline(always)]
    pub(crate) fn tell(&mut self, indication: Indication<'_>)
        requires place { 1 ≤ self.old.places }
        requires octets { indicated_octets indication ≤ self.old.octets }
        ensures told { self.new.outputs ≡ self.old.outputs ++ indicated indication.entry ∷ [] }
        ensures places { self.old.places ≤ self.new.places + 1 }
        ensures octets { self.old.octets ≤ self.new.octets + indicated_octets indication.entry }
    {
        let kept = keep_indication(&mut self.octets, indication);
        self.records.push_reserved(kept);
    }

    /// Appends a TC-INVOKE indication, for which there is room.
    // It is a seventh of `tell`, which has all kinds in it: so the handlers of components can have it inlined.
    #[inline(always)]
    pub(crate) fn tell_invoked(
        &mut self,
        dialogue: Option<u32>,
        id: i8,
        linked: Option<i8>,
        code: Code<'_>,
        parameter: Option<&[u8]>,
    )
        requires place { 1 ≤ self.old.places }
        requires octets { indicated_octets (indication.Invoked dialogue id linked code parameter) ≤ self.old.octets }
        ensures told { self.new.outputs ≡ self.old.outputs
            ++ indicated (indication.Invoked dialogue id linked code.entry parameter.entry) ∷ [] }
        ensures places { self.old.places ≤ self.new.places + 1 }
        ensures octets { self.old.octets ≤ self.new.octets
            + indicated_octets (indication.Invoked dialogue id linked code.entry parameter.entry) }
    {
        let body = keep_operation(&mut self.octets, code, parameter);
        self.records.push_reserved(Record::Invoked {
            dialogue,
            id,
            linked,
            body,
        });
    }

    /// Appends a TC-RESULT-L indication, for which there is room.
    // As `tell_invoked`.
    #[inline(always)]
    pub(crate) fn tell_result_last(
        &mut self,
        dialogue: u32,
        number: u64,
        id: i8,
        body: Option<Body<'_>>,
    )
        requires place { 1 ≤ self.old.places }
        requires octets { indicated_octets (indication.ResultLast dialogue number id body) ≤ self.old.octets }
        ensures told { self.new.outputs ≡ self.old.outputs
            ++ indicated (indication.ResultLast dialogue number id body.entry) ∷ [] }
        ensures places { self.old.places ≤ self.new.places + 1 }
        ensures octets { self.old.octets ≤ self.new.octets
            + indicated_octets (indication.ResultLast dialogue number id body.entry) }
    {
        let body = keep_body(&mut self.octets, body);
        self.records.push_reserved(Record::ResultLast {
            dialogue,
            number,
            id,
            body,
        });
    }

    /// Writes a message that goes to this address; there is a place for it.
    // Called: inlined it made each sender so large that the toolchain inlined none of them where the message is known,
    // which took 110 instructions a step of the calls with a vector, and saved those with an outbox none.
    #[inline(never)]
    pub(crate) fn send(&mut self, to: &[u8], message: &Outgoing<'_>) -> Result<(), AllocError>
        requires to { length to.now ≤ 255 }
        requires place { 1 ≤ self.old.places }
        ensures ok { OnOk result (self.new.outputs ≡ self.old.outputs
            ++ model.Output.send to.now (written_frame (sending_view message.now.sending)) ∷ []) }
        ensures err { OnErr result (self.new.outputs ≡ self.old.outputs) }
        ensures places { OnOk result (self.old.places ≤ self.new.places + 1) }
    {
        make_room(&mut self.octets, to.len().saturating_add(message.len()))?;
        let to = keep(&mut self.octets, to);
        let bytes = keep_message(&mut self.octets, message);
        self.records.push_reserved(Record::Send { to, bytes });
        Ok(())
    }

    /// Writes a message as it stands, which is so long, and goes to this address; there is a place for it.
    // Inlined, where the message is known: the matches on it fold away.
    #[inline(always)]
    pub(crate) fn send_frame(
        &mut self,
        to: &[u8],
        frame: &Frame<'_>,
        len: MessageLength,
    ) -> Result<(), AllocError>
        requires to { length to.now ≤ 255 }
        requires place { 1 ≤ self.old.places }
        requires measured { IsMeasured len (message frame.now) None }
        ensures ok { OnOk result (self.new.outputs ≡ self.old.outputs
            ++ model.Output.send to.now (written_frame (message frame.now)) ∷ []) }
        ensures err { OnErr result (self.new.outputs ≡ self.old.outputs) }
        ensures places { OnOk result (self.old.places ≤ self.new.places + 1) }
    {
        make_room(&mut self.octets, to.len().saturating_add(len.octets()))?;
        let to = keep(&mut self.octets, to);
        let bytes = keep_frame(&mut self.octets, frame, len);
        self.records.push_reserved(Record::Send { to, bytes });
        Ok(())
    }
}

/// Appends the octets of a message, for which there is room.
#[inline(always)]
fn keep_message<A: Allocator + Copy>(octets: &mut Vec<u8, A>, message: &Outgoing<'_>) -> Span
    requires { HasRoom (vec_capacity octets.old) (vec_len octets.old)
        (length (written_frame (sending_view message.now.sending))) }
    ensures items { octets.new.items ≡ octets.old.items ++ written_frame (sending_view message.now.sending) }
    ensures within { vec_len octets.new ≤ most_octets }
    ensures capacity { vec_capacity octets.old ≤ vec_capacity octets.new }
    ensures fits { Fits octets.new.items result }
    ensures reads { part octets.new.items result ≡ written_frame (sending_view message.now.sending) }
{
    let at = octets.len() as u32;
    message.append(octets);
    Span {
        at,
        len: message.len() as u32,
    }
}

/// Appends the octets of a message as it stands, which is so long, and for which there is room.
#[inline(always)]
fn keep_frame<A: Allocator + Copy>(
    octets: &mut Vec<u8, A>,
    frame: &Frame<'_>,
    len: MessageLength,
) -> Span
    requires measured { IsMeasured len (message frame.now) None }
    requires room { HasRoom (vec_capacity octets.old) (vec_len octets.old)
        (length (written_frame (message frame.now))) }
    ensures items { octets.new.items ≡ octets.old.items ++ written_frame (message frame.now) }
    ensures within { vec_len octets.new ≤ most_octets }
    ensures capacity { vec_capacity octets.old ≤ vec_capacity octets.new }
    ensures fits { Fits octets.new.items result }
    ensures reads { part octets.new.items result ≡ written_frame (message frame.now) }
{
    let at = octets.len() as u32;
    append_frame(octets, frame, len);
    Span {
        at,
        len: len.octets() as u32,
    }
}
