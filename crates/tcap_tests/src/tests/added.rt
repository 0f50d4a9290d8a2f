//! What is added to a text: each public call that adds, at each capacity of the text, with its next growth
//! refused; and the room that a text keeps.

use refusing::Refusing;
use std::alloc::{AllocError, Global};
use std::test::Fail;
use tcap_component::{Body, Code, Kind, Problem};
use tcap_pdu::{DialoguePdu, TransId};
use tcap_words::{
    Verdict, add_body, add_coded, add_decimal, add_destination, add_dialogue, add_hex,
    add_identifier, add_line, add_number, add_octets_or_dash, add_optional_octets, add_origin,
    add_pdu, add_portions, add_problem, add_signed, add_verdict, decode_hex, rewrite_components,
};

/// The octets 00 to 13.
const TWENTY: &[u8] = &[
    0, 1, 2, 3, 4, 5, 6, 7, 8, 9, 10, 11, 12, 13, 14, 15, 16, 17, 18, 19,
];

/// A context.
const CONTEXT: &[u8] = &[0x04, 0x00, 0x00, 0x01, 0x00, 0x01, 0x03];

/// The AARQ of this context.
const AARQ: &[u8] = &[
    0x28, 0x18, 0x06, 0x07, 0x00, 0x11, 0x86, 0x05, 0x01, 0x01, 0x01, 0xa0, 0x0d, 0x60, 0x0b, 0xa1,
    0x09, 0x06, 0x07, 0x04, 0x00, 0x00, 0x01, 0x00, 0x01, 0x03,
];

/// What is shown of a dialogue portion with it.
const AARQ_LINES: &str = "  dialogue 26\n    aarq version yes context 04000001000103 info -\n";

/// An Invoke with a parameter, and a component without an identifier.
const COMPONENTS: &[u8] = &[
    0xa1, 0x0a, 0x02, 0x01, 0x01, 0x02, 0x01, 0x02, 0x30, 0x02, 0x05, 0x00, 0xa1, 0x02, 0x05, 0x00,
];

/// What is added to a text.
#[derive(Clone, Copy)]
enum Addition {
    Line,
    Number,
    Verdict(Verdict),
    Decimal,
    Signed,
    Identifier(Option<i8>),
    Hex,
    Octets,
    NoOctets,
    OptionalOctets,
    LocalCode,
    GlobalCode,
    Body,
    NoBody,
    Problem,
    Pdu,
    Origin,
    Destination,
    Dialogue,
    Portions,
}

/// Adds to a text; nothing where memory is refused.
fn add(text: &mut String<&Refusing<Global>>, addition: Addition) -> Option<()> {
    let local = Code::Local(-10);
    let parameter = Some(&TWENTY[4..7]);
    let body = Some(Body {
        code: local,
        parameter,
    });
    match addition {
        Addition::Line => add_line(text, "abort").ok(),
        Addition::Number => add_number(text, "rest", 1_234).ok(),
        Addition::Verdict(verdict) => add_verdict(text, verdict).ok(),
        Addition::Decimal => add_decimal(text, 1_234).ok(),
        Addition::Signed => add_signed(text, -1_234).ok(),
        Addition::Identifier(id) => add_identifier(text, id).ok(),
        Addition::Hex => add_hex(text, TWENTY).ok(),
        Addition::Octets => add_octets_or_dash(text, TWENTY).ok(),
        Addition::NoOctets => add_octets_or_dash(text, &[]).ok(),
        Addition::OptionalOctets => add_optional_octets(text, parameter).ok(),
        Addition::LocalCode => add_coded(text, &local, parameter).ok(),
        Addition::GlobalCode => add_coded(text, &Code::Global(CONTEXT), None).ok(),
        Addition::Body => add_body(text, &body).ok(),
        Addition::NoBody => add_body(text, &None).ok(),
        Addition::Problem => add_problem(text, Problem::new(Kind::Result, 2)?).ok(),
        Addition::Pdu => add_pdu(
            text,
            &DialoguePdu::Aarq {
                version1: true,
                context: CONTEXT,
                info: TWENTY,
            },
        )
        .ok(),
        Addition::Origin => add_origin(text, &TransId::new(&TWENTY[1..5])?).ok(),
        Addition::Destination => add_destination(text, &TransId::new(&TWENTY[2..3])?).ok(),
        Addition::Dialogue => add_dialogue(text, Some(AARQ)).ok(),
        Addition::Portions => {
            add_portions(text, Some(AARQ), COMPONENTS).ok()?;
            Some(())
        }
    }
}

/// What stands in a text before.
const BEFORE: &str = "end\n";

/// A text of this capacity at least, with what stands in it before.
fn text_of<'h>(
    heap: &'h Refusing<Global>,
    capacity: usize,
) -> Result<String<&'h Refusing<Global>>, AllocError> {
    let mut text = String::with_capacity(heap, capacity)?;
    text.push_str(BEFORE)?;
    Ok(text)
}

/// Whether a text of this capacity, whose next growth is refused, has these words more after an addition where
/// nothing was refused, and is as before where something was. Tells whether it was.
fn is_refused(
    heap: &Refusing<Global>,
    addition: Addition,
    capacity: usize,
    words: &str,
) -> Option<bool> {
    let mut text = text_of(heap, capacity).ok()?;
    heap.refuse(1);
    let added = add(&mut text, addition);
    let refused = !heap.is_armed();
    heap.refuse(0);
    let behind = text.as_str().strip_prefix(BEFORE)?;
    let wanted = if refused { "" } else { words };
    (added.is_none() == refused && behind == wanted).then_some(refused)
}

/// At how many capacities the next growth was refused, of all up to that of the whole text; nothing where the
/// text wasn't as it has to be.
fn refusals(heap: &Refusing<Global>, addition: Addition, words: &str) -> Option<usize> {
    let mut count = 0usize;
    for more in 0..=words.len() {
        if is_refused(heap, addition, BEFORE.len().checked_add(more)?, words)? {
            count = count.saturating_add(1);
        }
    }
    Some(count)
}

#[test]
fn additions_at_each_capacity(rt: HostRuntime) -> Result<(), Fail> {
    let heap = Refusing::new(rt.alloc());
    let rows = [
        (Addition::Line, "abort\n"),
        (Addition::Number, "rest 1234\n"),
        (Addition::Verdict(Verdict::Good), "good\n"),
        (
            Addition::Verdict(Verdict::Component(3)),
            "fault component 3\n",
        ),
        (Addition::Decimal, "1234"),
        (Addition::Signed, "-1234"),
        (Addition::Identifier(Some(-1)), "-1"),
        (Addition::Identifier(None), "-"),
        (Addition::Hex, "000102030405060708090a0b0c0d0e0f10111213"),
        (Addition::Octets, "000102030405060708090a0b0c0d0e0f10111213"),
        (Addition::NoOctets, "-"),
        (Addition::OptionalOctets, "040506"),
        (Addition::LocalCode, "local -10 param 040506"),
        (Addition::GlobalCode, "global 04000001000103 param -"),
        (Addition::Body, "local -10 param 040506"),
        (Addition::NoBody, "- param -"),
        (Addition::Problem, "result 2"),
        (
            Addition::Pdu,
            "aarq version yes context 04000001000103 info 000102030405060708090a0b0c0d0e0f10111213",
        ),
        (Addition::Origin, "  otid 01020304\n"),
        (Addition::Destination, "  dtid 02\n"),
        (Addition::Dialogue, AARQ_LINES),
        (
            Addition::Portions,
            "  dialogue 26\n    aarq version yes context 04000001000103 info -\n  components 16\n    invoke 1 linked - op local 2 param 30020500\n    faulty - general 1\n",
        ),
    ];
    for (addition, words) in rows {
        // All capacities but the last are too small.
        let refused = refusals(&heap, addition, words);
        assert!(rt; refused == Some(words.len()), "at {words:?}, {refused:?}");
    }
    Ok(())
}

/// A Begin of 464 octets, whose component has no identifier.
fn faulty_message(alloc: Global) -> Result<Vec<u8>, AllocError> {
    let head = [
        0x62, 0x82, 0x01, 0xcc, 0x48, 0x04, 0x00, 0x00, 0x00, 0x01, 0x6c, 0x82, 0x01, 0xc2, 0xa1,
        0x82, 0x01, 0xbe, 0x04, 0x82, 0x01, 0xba,
    ];
    let mut message = head.to_vec(alloc)?;
    message.resize(464, 0)?;
    Ok(message)
}

#[test]
fn room_behind_a_fault(rt: HostRuntime) -> Result<(), Fail> {
    let message = faulty_message(rt.alloc())?;
    let shown = tcap_text::show_text(rt.alloc(), &message)?;
    let wanted = b"begin\n  otid 00000001\n  components 450\n    faulty - general 1\n";
    assert_eq!(rt; shown.text.as_slice(), wanted.as_slice());
    assert!(rt;
        shown.text.capacity() <= 128,
        "{} octets",
        shown.text.capacity()
    );
    // The same contents behind an Invoke of six octets.
    let mut components = b"\xa1\x06\x02\x01\x01\x02\x01\x02".to_vec(rt.alloc())?;
    components.extend_from_slice(message.get(14..).ok_or("short")?)?;
    let rewritten = rewrite_components(rt.alloc(), &components)
        .ok()
        .ok_or("no canonical form")?;
    assert_eq!(rt; rewritten.as_slice(), &components[..8]);
    assert!(rt;
        rewritten.capacity() <= 128,
        "{} octets",
        rewritten.capacity()
    );
    Ok(())
}

#[test]
fn no_memory_for_a_word(rt: HostRuntime) -> Result<(), Fail> {
    let heap = Refusing::new(rt.alloc());
    heap.refuse(1);
    for word in ["user", "zzzzzzzz", "abc", "-"] {
        let read = decode_hex(&heap, word.as_bytes());
        assert!(rt; matches!(read, Ok(None)) && heap.is_armed(), "at {word}");
    }
    Ok(())
}
