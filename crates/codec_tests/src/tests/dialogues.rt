//! Dialogue portions, read and written.

ghost use Rattle.tcap_pdu.specs.DialogueViews.{pdu_value};
ghost use Rattle.tcap_pdu.specs.DialogueWritten.{HasDiagnostic};

use super::elements::long_element;
use std::alloc::Global;
use std::test::Fail;
use tcap_pdu::DialoguePdu::{Aare, Aarq, Abrt, Audt, Foreign};
use tcap_pdu::dialogue_tag::{NO_COMMON_DIALOGUE_PORTION, NULL};
use tcap_pdu::{Diagnostic, DialoguePdu, PduFault, dialogue_len, read_dialogue, write_dialogue};

/// An application context name.
const CTX: &[u8] = &[0x04, 0x00, 0x00, 0x01, 0x00, 0x01, 0x03];
/// A dialogue request with that name.
const AARQ: &[u8] =
    b"\x28\x1c\x06\x07\x00\x11\x86\x05\x01\x01\x01\xa0\x11\x60\x0f\x80\x02\x07\x80\xa1\x09\x06\x07\x04\x00\x00\x01\x00\x01\x03";
/// A dialogue response with that name: accepted, and of the user no diagnostic.
const AARE: &[u8] =
    b"\x28\x28\x06\x07\x00\x11\x86\x05\x01\x01\x01\xa0\x1d\x61\x1b\x80\x02\x07\x80\xa1\x09\x06\x07\x04\x00\x00\x01\x00\x01\x03\xa2\x03\x02\x01\x00\xa3\x05\xa1\x03\x02\x01\x00";

/// An AUDT of another version, with the name 2A.
const AUDT: &[u8] =
    b"\x28\x16\x06\x07\x00\x11\x86\x05\x01\x02\x01\xa0\x0b\x60\x09\x80\x02\x07\x00\xa1\x03\x06\x01\x2a";
/// An ABRT of the provider, with user information.
const ABRT: &[u8] =
    b"\x28\x14\x06\x07\x00\x11\x86\x05\x01\x01\x01\xa0\x09\x64\x07\x80\x01\x01\xbe\x02\x28\x00";

/// An AARQ without user information.
fn request<'a>(version1: bool, context: &'a [u8]) -> DialoguePdu<'a> {
    Aarq {
        version1,
        context,
        info: &[],
    }
}

/// An ABRT.
fn abort<'a>(by_provider: bool, info: &'a [u8]) -> DialoguePdu<'a> {
    Abrt { by_provider, info }
}

/// An AARE with the context of the examples.
fn response<'a>(version1: bool, accepted: bool, diagnostic: Diagnostic) -> DialoguePdu<'a> {
    Aare {
        version1,
        context: CTX,
        accepted,
        diagnostic,
        info: &[],
    }
}

/// What is no dialogue portion that can be read.
const UNREADABLE: &[&[u8]] = &[
    // No EXTERNAL in 28, and no 28.
    b"\x28\x00",
    b"",
    // A version that is no bit string.
    b"\x28\x14\x06\x07\x00\x11\x86\x05\x01\x01\x01\xa0\x09\x60\x07\x80\x00\xa1\x03\x06\x01\x2a",
    b"\x28\x15\x06\x07\x00\x11\x86\x05\x01\x01\x01\xa0\x0a\x60\x08\x80\x01\x07\xa1\x03\x06\x01\x2a",
    b"\x28\x16\x06\x07\x00\x11\x86\x05\x01\x01\x01\xa0\x0b\x60\x09\x80\x02\x08\x80\xa1\x03\x06\x01\x2a",
    // A known syntax is never foreign: no A0, a PDU of another tag, a response or an abort where none is.
    b"\x28\x09\x06\x07\x00\x11\x86\x05\x01\x01\x01",
    b"\x28\x10\x06\x07\x00\x11\x86\x05\x01\x01\x01\xa0\x05\x62\x03\x80\x01\x00",
    b"\x28\x10\x06\x07\x00\x11\x86\x05\x01\x02\x01\xa0\x05\x64\x03\x80\x01\x00",
    b"\x28\x28\x06\x07\x00\x11\x86\x05\x01\x02\x01\xa0\x1d\x61\x1b\x80\x02\x07\x80\xa1\x09\x06\x07\x04\x00\x00\x01\x00\x01\x03\xa2\x03\x02\x01\x00\xa3\x05\xa1\x03\x02\x01\x00",
    // The syntax of a foreign one is an object identifier.
    b"\x28\x03\x06\x01\x80",
    b"\x28\x04\x06\x01\x2a\x04",
    // Something follows the PDU, A0 or 28.
    b"\x28\x12\x06\x07\x00\x11\x86\x05\x01\x01\x01\xa0\x07\x64\x03\x80\x01\x00\x04\x00",
    b"\x28\x12\x06\x07\x00\x11\x86\x05\x01\x01\x01\xa0\x05\x64\x03\x80\x01\x00\x28\x00",
    b"\x28\x10\x06\x07\x00\x11\x86\x05\x01\x01\x01\xa0\x05\x64\x03\x80\x01\x00\x04\x00",
    b"\x28\x04\x06\x02\x2a\x03\x28\x00",
    // User information is a list of EXTERNALs.
    b"\x28\x14\x06\x07\x00\x11\x86\x05\x01\x01\x01\xa0\x09\x64\x07\x80\x01\x01\xbe\x02\x04\x00",
    // A result is 0 or 1, a diagnostic at most 7F, an abort source 0 or 1.
    b"\x28\x24\x06\x07\x00\x11\x86\x05\x01\x01\x01\xa0\x19\x61\x17\xa1\x09\x06\x07\x04\x00\x00\x01\x00\x01\x03\xa2\x03\x02\x01\x02\xa3\x05\xa1\x03\x02\x01\x00",
    b"\x28\x24\x06\x07\x00\x11\x86\x05\x01\x01\x01\xa0\x19\x61\x17\xa1\x09\x06\x07\x04\x00\x00\x01\x00\x01\x03\xa2\x03\x02\x01\x00\xa3\x05\xa1\x03\x02\x01\x80",
    b"\x28\x24\x06\x07\x00\x11\x86\x05\x01\x01\x01\xa0\x19\x61\x17\xa1\x09\x06\x07\x04\x00\x00\x01\x00\x01\x03\xa2\x03\x02\x01\x00\xa3\x05\xa3\x03\x02\x01\x00",
    b"\x28\x10\x06\x07\x00\x11\x86\x05\x01\x01\x01\xa0\x05\x64\x03\x80\x01\x02",
];

/// Whether these octets are read as this PDU.
fn is_read(bytes: &[u8], pdu: &DialoguePdu<'_>) -> bool {
    read_dialogue(bytes).ok().as_ref() == Some(pdu)
}

/// The worked examples: a request, a response, and one of another version.
fn reads_examples() -> bool {
    let refused = Diagnostic::Provider(NO_COMMON_DIALOGUE_PORTION);
    is_read(AARQ, &request(true, CTX))
        && is_read(AARE, &response(true, true, Diagnostic::User(NULL)))
        && is_read(
            b"\x28\x28\x06\x07\x00\x11\x86\x05\x01\x01\x01\xa0\x1d\x61\x1b\x80\x02\x07\x00\xa1\x09\x06\x07\x04\x00\x00\x01\x00\x01\x03\xa2\x03\x02\x01\x01\xa3\x05\xa2\x03\x02\x01\x02",
            &response(false, false, refused),
        )
}

/// The version: absent, an octet more, no bits.
fn reads_versions() -> bool {
    is_read(
        b"\x28\x12\x06\x07\x00\x11\x86\x05\x01\x01\x01\xa0\x07\x60\x05\xa1\x03\x06\x01\x2a",
        &request(true, &[0x2a]),
    ) && is_read(
        b"\x28\x17\x06\x07\x00\x11\x86\x05\x01\x01\x01\xa0\x0c\x60\x0a\x80\x03\x07\x80\x01\xa1\x03\x06\x01\x2a",
        &request(true, &[0x2a]),
    ) && is_read(
        b"\x28\x16\x06\x07\x00\x11\x86\x05\x01\x01\x01\xa0\x0b\x60\x09\x80\x02\x07\x00\xa1\x03\x06\x01\x2a",
        &request(false, &[0x2a]),
    ) && is_read(
        b"\x28\x15\x06\x07\x00\x11\x86\x05\x01\x01\x01\xa0\x0a\x60\x08\x80\x01\x00\xa1\x03\x06\x01\x2a",
        &request(false, &[0x2a]),
    )
}

/// The contents of a syntax are compared, and not its spelling; the syntax of the Unidirectional is the other one.
fn reads_syntaxes() -> bool {
    is_read(
        b"\x28\x11\x06\x81\x07\x00\x11\x86\x05\x01\x01\x01\xa0\x05\x64\x03\x80\x01\x00",
        &abort(false, &[]),
    ) && is_read(
        b"\x28\x12\x06\x07\x00\x11\x86\x05\x01\x02\x01\xa0\x07\x60\x05\xa1\x03\x06\x01\x2a",
        &Audt {
            version1: true,
            context: &[0x2a],
            info: &[],
        },
    )
}

/// Whether a foreign EXTERNAL is kept whole.
fn is_kept(external: &[u8]) -> bool {
    is_read(external, &Foreign { external })
}

/// A foreign one needs no A0.
fn reads_foreign() -> bool {
    is_kept(b"\x28\x04\x06\x02\x2a\x03")
        && is_kept(b"\x28\x81\x04\x06\x02\x2a\x03")
        && is_kept(b"\x28\x05\x06\x01\x2a\xa0\x00")
}

/// Nothing follows the PDU, A0 or 28. User information is a list of EXTERNALs, and may be empty.
fn reads_aborts() -> bool {
    is_read(
        b"\x28\x10\x06\x07\x00\x11\x86\x05\x01\x01\x01\xa0\x05\x64\x03\x80\x01\x00",
        &abort(false, &[]),
    ) && is_read(
        b"\x28\x12\x06\x07\x00\x11\x86\x05\x01\x01\x01\xa0\x07\x64\x05\x80\x01\x01\xbe\x00",
        &abort(true, &[]),
    ) && is_read(
        b"\x28\x14\x06\x07\x00\x11\x86\x05\x01\x01\x01\xa0\x09\x64\x07\x80\x01\x01\xbe\x02\x28\x00",
        &abort(true, &[0x28, 0x00]),
    )
}

#[test]
fn portions_read(rt: HostRuntime) -> Result<(), Fail> {
    assert!(rt; reads_examples());
    assert!(rt; reads_versions());
    assert!(rt; reads_syntaxes());
    assert!(rt; reads_foreign());
    assert!(rt; reads_aborts());
    for bytes in UNREADABLE {
        assert!(rt; read_dialogue(bytes).is_err(), "{bytes:?}");
    }
    Ok(())
}

/// Whether the PDU is written as these bytes, and their number is told.
fn is_written(alloc: Global, pdu: &DialoguePdu<'_>, bytes: &[u8]) -> bool
    requires { HasDiagnostic (pdu_value pdu.now) }
{
    match write_dialogue(alloc, pdu) {
        Ok(out) => out.as_slice() == bytes && dialogue_len(pdu) == Some(bytes.len()),
        Err(_) => false,
    }
}

/// Whether this fault refuses an AARQ, and no length is told.
fn is_refused(alloc: Global, context: &[u8], info: &[u8], fault: PduFault) -> bool {
    let pdu = Aarq {
        version1: true,
        context,
        info,
    };
    match write_dialogue(alloc, &pdu) {
        Ok(_) => false,
        Err(refused) => refused == fault && dialogue_len(&pdu).is_none(),
    }
}

#[test]
fn portions_written(rt: HostRuntime) -> Result<(), Fail> {
    let alloc = rt.alloc();
    let (context, info): (&[u8], &[u8]) = (&[0x2a], &[]);
    let request = Aarq {
        version1: true,
        context: CTX,
        info,
    };
    assert!(rt; is_written(alloc, &request, AARQ));
    let response = Aare {
        version1: true,
        context: CTX,
        accepted: true,
        diagnostic: Diagnostic::User(NULL),
        info,
    };
    assert!(rt; is_written(alloc, &response, AARE));
    let unidirectional = Audt {
        version1: false,
        context,
        info,
    };
    assert!(rt; is_written(alloc, &unidirectional, AUDT));
    let abort = Abrt {
        by_provider: true,
        info: &[0x28, 0x00],
    };
    assert!(rt; is_written(alloc, &abort, ABRT));
    let external = b"\x28\x81\x04\x06\x02\x2a\x03";
    assert!(rt; is_written(alloc, &Foreign { external }, external));
    Ok(())
}

#[test]
fn portions_refused(rt: HostRuntime) -> Result<(), Fail> {
    let alloc = rt.alloc();
    assert!(rt; is_refused(alloc, &[0x80], &[0x04, 0x00], PduFault::BadOid));
    assert!(rt; is_refused(alloc, CTX, &[0x04, 0x00], PduFault::BadInfo));
    let long = long_element(alloc, 0x28)?;
    assert!(rt; is_refused(alloc, CTX, &long, PduFault::TooLong));
    let known = Foreign { external: AARQ };
    assert!(rt; matches!(write_dialogue(alloc, &known), Err(PduFault::BadInfo)));
    Ok(())
}
