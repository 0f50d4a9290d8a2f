//! Lines, and the objects of JSON that are printed for them.

use super::lines::LIMITS;
use std::test::Fail;
use tcap_living::{Format, run_live};

/// Lines, and the objects that they print: an object in each line, its members in a fixed order.
const ROWS: &[(&str, &[&str])] = &[
    // What is made, what is sent and where it goes, and that the outputs are over.
    (
        "new\ninvoke 1 1 1 10 1000 - -\nbegin 1 42 - -\ntimer\nstate 1\n",
        &[
            r#"{"line":1,"last":"new","dialogue":1}"#,
            r#"{"line":2,"last":"number","number":1}"#,
            r#"{"line":3,"output":"send","to":"42","octets":"62104804000000016c08a10602010102010a"}"#,
            r#"{"line":3,"last":"done"}"#,
            r#"{"line":4,"last":"timer","moment":1000}"#,
            r#"{"line":5,"last":"state","state":"sent"}"#,
        ],
    ),
    // A part of a result, and then time runs out.
    (
        "new\ninvoke 1 1 1 10 1000 - -\nbegin 1 - - -\nreceive - 651B4804000000094904000000016C0DA70B020101300602010A0401AA\nadvance 1000\n",
        &[
            r#"{"line":1,"last":"new","dialogue":1}"#,
            r#"{"line":2,"last":"number","number":1}"#,
            r#"{"line":3,"output":"send","to":"","octets":"62104804000000016c08a10602010102010a"}"#,
            r#"{"line":3,"last":"done"}"#,
            r#"{"line":4,"output":"continue","dialogue":1,"context":null,"info":""}"#,
            r#"{"line":4,"output":"more","dialogue":1,"id":1,"number":1,"code":10,"parameter":"0401aa"}"#,
            r#"{"line":4,"last":"done"}"#,
            r#"{"line":5,"output":"lapsed","dialogue":1,"id":1,"number":1}"#,
            r#"{"line":5,"last":"done"}"#,
        ],
    ),
    // A context; an Invoke in a dialogue and in none; a message that is dropped; what is absent.
    (
        "receive 43 62264804000000036B1E281C060700118605010101A011600F80020780A109060704000001000103\nreceive 42 610A6C08A10602010102010A\nreceive 42 00\nstate 9\ntimer\n",
        &[
            r#"{"line":1,"output":"begin","dialogue":1,"context":"04000001000103","info":""}"#,
            r#"{"line":1,"last":"done"}"#,
            r#"{"line":2,"output":"uni","context":null,"info":""}"#,
            r#"{"line":2,"output":"invoked","dialogue":null,"id":1,"linked":null,"code":10,"parameter":null}"#,
            r#"{"line":2,"last":"done"}"#,
            r#"{"line":3,"output":"dropped","why":"badmessage"}"#,
            r#"{"line":3,"last":"done"}"#,
            r#"{"line":4,"last":"state","state":null}"#,
            r#"{"line":5,"last":"timer","moment":null}"#,
        ],
    ),
    // Aborts by the peer's user and by its provider, and what they end.
    (
        "new\ninvoke 1 1 1 10 1000 - -\nbegin 1 42 - -\nreceive 42 6706490400000001\nnew\nbegin 2 42 - -\nreceive 42 67094904000000024A0102\n",
        &[
            r#"{"line":1,"last":"new","dialogue":1}"#,
            r#"{"line":2,"last":"number","number":1}"#,
            r#"{"line":3,"output":"send","to":"42","octets":"62104804000000016c08a10602010102010a"}"#,
            r#"{"line":3,"last":"done"}"#,
            r#"{"line":4,"output":"uabort","dialogue":1,"pdu":null}"#,
            r#"{"line":4,"output":"ended","dialogue":1,"id":1,"number":1}"#,
            r#"{"line":4,"last":"done"}"#,
            r#"{"line":5,"last":"new","dialogue":2}"#,
            r#"{"line":6,"output":"send","to":"42","octets":"6206480400000002"}"#,
            r#"{"line":6,"last":"done"}"#,
            r#"{"line":7,"output":"pabort","dialogue":2,"why":"cause 2"}"#,
            r#"{"line":7,"last":"done"}"#,
        ],
    ),
    // A refusal, and lines that have no form.
    (
        "cancel 1 1\ninvoke 1 01 1\nabort 1 abandon -\n",
        &[
            r#"{"line":1,"last":"refused","fault":2,"name":"unknown dialogue"}"#,
            r#"{"line":2,"last":"bad","word":3,"why":"word 3, a number without leading zeros"}"#,
            r#"{"line":3,"last":"bad","word":3,"why":"word 3, user or unsupported"}"#,
        ],
    ),
];

#[test]
fn lines_are_answered_in_json(rt: HostRuntime) -> Result<(), Fail> {
    for (lines, wanted) in ROWS {
        let alloc = rt.alloc();
        let mut reader = lines.as_bytes();
        let mut out = Vec::new(alloc);
        let good = !lines.contains(" abandon ");
        let came = run_live(alloc, Format::Json, LIMITS, 1, 1, &mut reader, &mut out);
        let mut text = Vec::new(alloc);
        for object in *wanted {
            text.extend_from_slice(object.as_bytes())?;
            text.extend_from_slice(b"\n")?;
        }
        assert!(rt;
            came == Ok(good) && out.as_slice() == text.as_slice(),
            "at {lines:?}"
        );
    }
    Ok(())
}
