//! The Aborts that the provider sends.

ghost use Rattle.std.specs.Prelude.{◌≡◌, ◌≤◌, IfOk, Some};
ghost use Rattle.tcap_primitives.specs.AbortViews.{CanWriteAbort, abort_sent, cause_number};
ghost use Rattle.tcap_primitives.specs.SendingViews.{IsGood, sending_view};
ghost use Rattle.tcap_pdu.specs.DialogueViews.{pdu_value};
ghost use Rattle.tcap_pdu.specs.DialogueWritten.{written_dialogue};
ghost use Rattle.tcap_pdu.specs.FrameSpelling.{Message, Reason};
ghost use Rattle.tcap_pdu.specs.FrameWritten.{written_frame};

use crate::sending::outgoing::Outgoing;
use crate::sending::{MessageParts, Sending};
use ber_core::OutOfMemory;
use std::alloc::Allocator;
use tcap_pdu::dialogue_tag::NO_COMMON_DIALOGUE_PORTION;
use tcap_pdu::tag::{RESOURCE_LIMITATION, UNRECOGNIZED_TRANSACTION_ID};
use tcap_pdu::{Diagnostic, DialoguePdu, FrameFault, TransId};

/// Why the provider aborts by a P-Abort cause (Q.773, P-Abort cause).
#[derive(Clone, Copy, Debug, PartialEq, Eq)]
pub enum Cause {
    /// The message can't be read: cause 0, 2 or 3.
    Faulty(FrameFault),
    /// The destination names no dialogue that takes the message: cause 1.
    UnrecognizedId,
    /// No dialogue can be created: cause 4.
    ResourceLimitation,
}

impl Cause {
    /// Its number, 0 to 4.
    pub fn number(self) -> u8
        ensures value { result ≡ cause_number self }
        ensures within { result ≤ 4 }
    {
        match self {
            Cause::Faulty(fault) => fault.cause(),
            Cause::UnrecognizedId => UNRECOGNIZED_TRANSACTION_ID,
            Cause::ResourceLimitation => RESOURCE_LIMITATION,
        }
    }
}

/// An Abort that the provider sends to a peer (Q.774, Abort by the provider).
#[derive(Debug, Drop)]
pub enum Abort<'m> {
    /// With a P-Abort cause.
    Cause { peer: TransId, cause: Cause },
    /// Since the dialogue portion is abnormal: with an ABRT by the provider.
    Abnormal { peer: TransId },
    /// Since the version of an AARQ isn't ours: with an AARE that isn't accepted, with the context of the
    /// AARQ and the diagnostic "no common dialogue portion".
    WrongVersion { peer: TransId, context: &'m [u8] },
}

/// The message of an Abort with this dialogue PDU.
fn pdu_sending<'a>(peer: &'a TransId, pdu: DialoguePdu<'a>) -> Sending<'a>
    requires { IsGood (Some pdu) }
    ensures sent { sending_view result
        ≡ Message.abort peer.now (Reason.portion (written_dialogue (pdu_value pdu.entry))) }
    ensures good { IsGood result.pdu }
{
    Sending {
        bearer: MessageParts::Abort { peer },
        pdu: Some(pdu),
    }
}

impl<'m> Abort<'m> {
    /// The message of the Abort, not yet measured.
    #[tactic(auto, using(crate::proofs::AbortLemmas::abort_good, crate::proofs::AbortLemmas::response_good))]
    fn sending<'a>(&'a self) -> Sending<'a>
        requires { CanWriteAbort self.now }
        ensures sent { sending_view result ≡ abort_sent self.now }
        ensures good { IsGood result.pdu }
    {
        match self {
            Abort::Cause { peer, cause } => Sending {
                bearer: MessageParts::AbortCause {
                    peer,
                    cause: cause.number(),
                },
                pdu: None,
            },
            Abort::Abnormal { peer } => pdu_sending(
                peer,
                DialoguePdu::Abrt {
                    by_provider: true,
                    info: &[],
                },
            ),
            Abort::WrongVersion { peer, context } => pdu_sending(
                peer,
                DialoguePdu::Aare {
                    version1: true,
                    context: *context,
                    accepted: false,
                    diagnostic: Diagnostic::Provider(NO_COMMON_DIALOGUE_PORTION),
                    info: &[],
                },
            ),
        }
    }

    /// The message of the Abort, which is short enough for any. The context of one for a wrong version is an
    /// object identifier, as the AARQ has it. It takes no memory.
    // Inlined, the message is built in its caller, which hands it on to be written.
    #[tactic(auto, using(crate::proofs::AbortLemmas::abort_fits))]
    #[inline(always)]
    pub fn outgoing<'a>(&'a self) -> Outgoing<'a>
        requires { CanWriteAbort self.now }
        ensures { sending_view result.sending ≡ abort_sent self.now }
    {
        let sending = self.sending();
        let length = sending.measured().unwrap();
        Outgoing { sending, length }
    }
}

/// Writes an Abort as it is sent. The context of one for a wrong version is an object identifier, as the
/// AARQ has it.
pub fn write_abort<A: Allocator + Copy>(
    alloc: A,
    abort: &Abort<'_>,
) -> Result<Vec<u8, A>, OutOfMemory>
    requires { CanWriteAbort abort.now }
    ensures { IfOk result (λ octets. octets.items ≡ written_frame (abort_sent abort.now)) }
{
    let message = abort.outgoing();
    let mut out = Vec::with_capacity(alloc, message.len())?;
    message.append(&mut out);
    Ok(out)
}
