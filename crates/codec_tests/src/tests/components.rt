//! Components, read and written.

use super::elements::long_element;
use super::written::{is_written, refusal};
use std::alloc::Global;
use std::test::Fail;
use tcap_component::{
    Body, Code, Component, ComponentFault, Components, Kind, Problem, WriteFault, read_component,
};

/// The general fault with this code, of octets that begin as a Reject or not.
fn general(code: u8, id: Option<i8>, was_reject: bool) -> Option<ComponentFault> {
    let problem = Problem::new(Kind::General, code)?;
    Some(ComponentFault {
        problem,
        id,
        was_reject,
    })
}

/// The fault of what stands first in the octets.
fn fault_of(octets: &[u8]) -> Option<ComponentFault> {
    match read_component(octets) {
        Ok(_) => None,
        Err(fault) => Some(fault),
    }
}

/// The Reject that the octets are: its identifier and its problem.
fn reject_of(octets: &[u8]) -> Option<(Option<i8>, Kind, u8)> {
    let Ok((component, [])) = read_component(octets) else {
        return None;
    };
    match component {
        Component::RejectBack { id, problem } => Some((id, problem.kind(), problem.code())),
        _ => None,
    }
}

/// How many components are given, and the fault after them.
fn listed(content: &[u8]) -> (usize, Option<ComponentFault>) {
    let mut count: usize = 0;
    let mut last = None;
    for item in Components::new(content) {
        match item {
            Ok(_) => count = count.saturating_add(1),
            Err(fault) => last = Some(fault),
        }
    }
    (count, last)
}

/// Whether these make a problem, which the provider tells or not.
fn is_problem(kind: Kind, code: u8, by_provider: bool) -> bool {
    match Problem::new(kind, code) {
        Some(problem) => {
            problem.kind() == kind && problem.code() == code && problem.by_provider() == by_provider
        }
        None => false,
    }
}

#[test]
fn problems(rt: HostRuntime) -> Result<(), Fail> {
    assert!(rt; Problem::new(Kind::General, 128).is_none());
    let rows: &[(Kind, u8, bool)] = &[
        (Kind::General, 2, true),
        (Kind::General, 3, false),
        (Kind::Invoke, 5, true),
        (Kind::Invoke, 4, false),
        (Kind::Result, 1, true),
        (Kind::Result, 2, false),
        (Kind::Error, 1, true),
        (Kind::Error, 127, false),
    ];
    for (kind, code, by_provider) in rows {
        assert!(rt; is_problem(*kind, *code, *by_provider), "{kind:?} {code}");
    }
    Ok(())
}

/// Components that are faulty, the code of the general fault and the identifier that is told.
const FAULTY: &[(&[u8], u8, Option<i8>)] = &[
    // a tag in its long form isn't the listed tag
    (&[0xbf, 0x01, 0x03, 0x02, 0x01, 0x05], 0, Some(5)),
    (&[0xbf, 0x81, 0x01, 0x03, 0x02, 0x01, 0x07], 0, Some(7)),
    (&[0xa5, 0x03, 0x02, 0x01, 0x07], 0, Some(7)),
    // a broken 30 that stands second, and one that stands third
    (
        &[0xa2, 0x07, 0x04, 0x00, 0x30, 0x01, 0xff, 0x04, 0x00],
        2,
        None,
    ),
    (
        &[
            0xa2, 0x0a, 0x02, 0x01, 0x01, 0x04, 0x00, 0x30, 0x03, 0x04, 0x00, 0xff,
        ],
        1,
        Some(1),
    ),
    // the identifier is read where the content isn't a list
    (&[0xa1, 0x04, 0x02, 0x01, 0x07, 0x04], 2, Some(7)),
    // a linked identifier of no octet
    (
        &[0xa1, 0x08, 0x02, 0x01, 0x07, 0x80, 0x00, 0x02, 0x01, 0x01],
        1,
        Some(7),
    ),
    // a local code of one octet too many, and of five octets
    (
        &[0xa1, 0x07, 0x02, 0x01, 0x07, 0x02, 0x02, 0x00, 0x0a],
        1,
        Some(7),
    ),
    (
        &[
            0xa1, 0x0a, 0x02, 0x01, 0x07, 0x02, 0x05, 0x01, 0x00, 0x00, 0x00, 0x00,
        ],
        1,
        Some(7),
    ),
    // a global code that is no object identifier, and a second parameter
    (
        &[0xa1, 0x06, 0x02, 0x01, 0x07, 0x06, 0x01, 0x80],
        1,
        Some(7),
    ),
    (
        &[
            0xa1, 0x0a, 0x02, 0x01, 0x07, 0x02, 0x01, 0x01, 0x04, 0x00, 0x04, 0x00,
        ],
        1,
        Some(7),
    ),
    // an identifier of two octets, a primitive element, and half an element
    (&[0xa2, 0x04, 0x02, 0x02, 0x00, 0x80], 1, None),
    (&[0x01, 0x03, 0x02, 0x01, 0x07], 0, None),
    (&[0xa1, 0x05, 0x02, 0x01, 0x07], 2, None),
];

#[test]
fn faults(rt: HostRuntime) -> Result<(), Fail> {
    for (octets, code, id) in FAULTY {
        assert!(rt;
            fault_of(octets) == general(*code, *id, false),
            "{octets:?}"
        );
    }
    Ok(())
}

/// Rejects that are faulty, and the code of the general fault.
const FAULTY_REJECTS: &[(&[u8], u8)] = &[
    (&[0xa4], 2),
    (&[0xa4, 0xff], 2),
    (&[0xa4, 0x05, 0x02], 2),
    (&[0xa4, 0x06, 0x05, 0x01, 0x00, 0x80, 0x01, 0x00], 1),
    (&[0xa4, 0x05, 0x05, 0x00, 0x80, 0x01, 0x80], 1),
];

#[test]
fn rejects(rt: HostRuntime) -> Result<(), Fail> {
    let rows: &[(&[u8], Option<i8>, Kind, u8)] = &[
        (
            &[0xa4, 0x05, 0x05, 0x00, 0x80, 0x01, 0x02],
            None,
            Kind::General,
            2,
        ),
        (
            &[0xa4, 0x06, 0x05, 0x81, 0x00, 0x80, 0x01, 0x02],
            None,
            Kind::General,
            2,
        ),
        (
            &[0xa4, 0x06, 0x02, 0x01, 0x01, 0x81, 0x01, 0x09],
            Some(1),
            Kind::Invoke,
            9,
        ),
    ];
    for (octets, id, kind, code) in rows {
        assert!(rt;
            reject_of(octets) == Some((*id, *kind, *code)),
            "{octets:?}"
        );
    }
    for (octets, code) in FAULTY_REJECTS {
        assert!(rt;
            fault_of(octets) == general(*code, None, true),
            "{octets:?}"
        );
    }
    Ok(())
}

#[test]
fn components_end_at_a_fault(rt: HostRuntime) -> Result<(), Fail> {
    let content = [
        0xa2, 0x03, 0x02, 0x01, 0x80, 0xa5, 0x03, 0x02, 0x01, 0x07, 0xa2, 0x03, 0x02, 0x01, 0x7f,
        0xa3, 0x06, 0x02, 0x01, 0x7f, 0x02, 0x01, 0x01,
    ];
    assert!(rt; listed(&content) == (1, general(0, Some(7), false)));
    Ok(())
}

/// An Invoke of identifier 1 that is not linked.
fn invoke<'a>(code: Code<'a>, parameter: Option<&'a [u8]>) -> Component<'a> {
    Component::Invoke {
        id: 1,
        linked: None,
        code,
        parameter,
    }
}

/// The body of a result, with a parameter.
fn body<'a>(code: u8, parameter: &'a [u8]) -> Option<Body<'a>> {
    Some(Body {
        code: Code::Local(i32::from(code)),
        parameter: Some(parameter),
    })
}

#[test]
fn components_written(rt: HostRuntime) -> Result<(), Fail> {
    let alloc = rt.alloc();
    let operation = invoke(Code::Local(10), None);
    assert!(rt; is_written(alloc, &operation, b"\xa1\x06\x02\x01\x01\x02\x01\x0a"));
    let body = body(128, b"\x04\x81\x01\xaa");
    let last = Component::ResultLast { id: -128, body };
    let octets = b"\xa2\x0d\x02\x01\x80\x30\x08\x02\x02\x00\x80\x04\x81\x01\xaa";
    assert!(rt; is_written(alloc, &last, octets));
    let more = Component::ResultMore {
        id: 127,
        body: None,
    };
    assert!(rt; is_written(alloc, &more, b"\xa7\x03\x02\x01\x7f"));
    let error = Component::ErrorBack {
        id: 1,
        code: Code::Global(&[0x2a, 0x03]),
        parameter: None,
    };
    assert!(rt; is_written(alloc, &error, b"\xa3\x07\x02\x01\x01\x06\x02\x2a\x03"));
    let problem = Problem::new(Kind::Result, 0).ok_or("at most 127")?;
    let reject = Component::RejectBack { id: None, problem };
    assert!(rt; is_written(alloc, &reject, b"\xa4\x05\x05\x00\x82\x01\x00"));
    Ok(())
}

#[test]
fn components_refused(rt: HostRuntime) -> Result<(), Fail> {
    let alloc = rt.alloc();
    let cut = [0x04, 0x05, 0xaa];
    let bad_name = invoke(Code::Global(&[0x80]), Some(&cut));
    assert!(rt; refusal(alloc, &bad_name) == Some(WriteFault::BadOid));
    let bad_parameter = invoke(Code::Local(1), Some(&cut));
    assert!(rt; refusal(alloc, &bad_parameter) == Some(WriteFault::BadParameter));
    let long = long_element(alloc, 0x04)?;
    let too_long = invoke(Code::Local(1), Some(&long));
    assert!(rt; refusal(alloc, &too_long) == Some(WriteFault::TooLong));
    let body = body(1, &cut);
    let more = Component::ResultMore { id: 1, body };
    assert!(rt; refusal(alloc, &more) == Some(WriteFault::BadParameter));
    Ok(())
}
