//! An output as C sees it: its numbers, and where its octets stand in the room.

ghost use Rattle.std.specs.Prelude.{◌≡◌, ◌<◌, ◌^◌};
ghost use Rattle.tcap_c.specs.Numbers.{bare, no_lengths, with_lengths};
ghost use Rattle.tcap_c.specs.Parts.{count_of};

use crate::output_kind::OutputKind;

/// In place of an invoke identifier, -128 to 127: none (our own).
pub(crate) const NO_ID: i16 = 256;

/// Where a part of an output stands in the room.
#[repr(C)]
#[derive(Clone, Copy)]
pub struct PartPlace {
    /// Where it begins, from 0 on.
    pub at: usize,
    /// How many octets it has.
    pub len: usize,
}

/// An output as numbers, laid out as `tcap_output` of include/tcap.h; what its kind doesn't have is 0, and an
/// identifier `NO_ID`. Its octets stand at the front of the room, part behind part (our own).
#[repr(C)]
#[derive(Clone, Copy)]
pub struct OutputNumbers {
    /// The number of the event that it answers, from 1 on.
    pub event: u64,
    /// The number of the invocation, which the TC-INVOKE request answered.
    pub number: u64,
    /// The address to which a message goes.
    pub address: PartPlace,
    /// The message that is sent.
    pub message: PartPlace,
    /// The contents octets of the application context name.
    pub context: PartPlace,
    /// The user information.
    pub info: PartPlace,
    /// 0: no code; 1: a local one; 2: a global one.
    pub code_kind: u32,
    /// A local operation or error code, -2^31 to 2^31 - 1.
    pub local: i32,
    /// The contents octets of a global operation or error code.
    pub global: PartPlace,
    /// The octets of the parameter's element.
    pub parameter: PartPlace,
    /// The identifier of the dialogue.
    pub dialogue: u32,
    /// Invoke identifier, -128 to 127.
    pub invoke_id: i16,
    /// Linked identifier, -128 to 127.
    pub linked_id: i16,
    /// A problem: 256 times its kind, 0 general, 1 invoke, 2 return result, 3 return error, and its code (Q.773,
    /// Problem).
    pub problem: u16,
    /// The P-Abort cause, or 256 abnormal dialogue, 257 no common dialogue, 258 idle; or why a message is dropped.
    pub cause: u16,
    /// The result source diagnostic of an AARE, 256 more where the provider gives it.
    pub diagnostic: u16,
    /// What it is, 1 to 18.
    pub kind: u8,
    /// The dialogue PDU of a TC-U-ABORT: 0 none, 1 AARQ, 2 AUDT, 3 AARE, 4 ABRT, 5 an EXTERNAL of another syntax.
    pub pdu: u8,
    /// It closes the invocation.
    pub closes: bool,
    /// It is the last output of its event.
    pub is_last: bool,
    /// It has an application context name.
    pub has_context: bool,
    /// It has a parameter.
    pub has_parameter: bool,
    /// Protocol version 1 is among the versions of the dialogue PDU.
    pub is_version1: bool,
    /// The AARE accepts.
    pub is_accepted: bool,
    /// The ABRT is by the dialogue service provider.
    pub is_by_provider: bool,
    /// In an octet that `tcap_output` doesn't use.
    pub has_dialogue: bool,
}

/// How many octets each part of an output has, in the order in which they stand in the room.
#[derive(Clone, Copy)]
pub struct PartLengths {
    /// The address to which a message goes, at most 255.
    pub address: usize,
    /// The message that is sent.
    pub message: usize,
    /// The application context name.
    pub context: usize,
    /// The user information.
    pub info: usize,
    /// A global operation or error code.
    pub global: usize,
    /// The parameter's element.
    pub parameter: usize,
}

impl PartPlace {
    /// So many octets, from there on.
    #[inline(always)]
    fn new(at: usize, len: usize) -> PartPlace
        ensures { result ≡ record { at = at; len = len } }
    {
        PartPlace { at, len }
    }
}

impl OutputNumbers {
    /// An output of this kind, of which nothing else is said.
    #[inline(always)]
    pub(crate) fn bare(kind: OutputKind) -> OutputNumbers
        ensures { result ≡ bare kind }
    {
        OutputNumbers {
            event: 0,
            number: 0,
            address: PartPlace::new(0, 0),
            message: PartPlace::new(0, 0),
            context: PartPlace::new(0, 0),
            info: PartPlace::new(0, 0),
            code_kind: 0,
            local: 0,
            global: PartPlace::new(0, 0),
            parameter: PartPlace::new(0, 0),
            dialogue: 0,
            invoke_id: NO_ID,
            linked_id: NO_ID,
            problem: 0,
            cause: 0,
            diagnostic: 0,
            kind: kind.number(),
            pdu: 0,
            closes: false,
            is_last: false,
            has_context: false,
            has_parameter: false,
            is_version1: false,
            is_accepted: false,
            is_by_provider: false,
            has_dialogue: false,
        }
    }

    /// Its parts have so many octets, and each stands behind the one before.
    #[inline(always)]
    pub(crate) fn with_lengths(self, lengths: PartLengths) -> OutputNumbers
        requires { count_of lengths < 2 ^ 64 }
        ensures { result ≡ with_lengths lengths self }
    {
        let context = lengths.address + lengths.message;
        let info = context + lengths.context;
        let global = info + lengths.info;
        let parameter = global + lengths.global;
        OutputNumbers {
            address: PartPlace::new(0, lengths.address),
            message: PartPlace::new(lengths.address, lengths.message),
            context: PartPlace::new(context, lengths.context),
            info: PartPlace::new(info, lengths.info),
            global: PartPlace::new(global, lengths.global),
            parameter: PartPlace::new(parameter, lengths.parameter),
            ..self
        }
    }
}

impl PartLengths {
    /// No octets.
    #[inline(always)]
    pub(crate) fn none() -> PartLengths
        ensures { result ≡ no_lengths }
    {
        PartLengths {
            address: 0,
            message: 0,
            context: 0,
            info: 0,
            global: 0,
            parameter: 0,
        }
    }
}
