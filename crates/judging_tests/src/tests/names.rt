//! Lists of names, and what messages name by them.

use std::alloc::Global;
use std::test::Fail;
use tcap_judging::{
    Form, Layout, NameKind, Named, NamesFault, judge_stream, name_for, names_text, read_names,
};

/// A list, and its bad line, or 0.
const LISTS: &[(&str, u64)] = &[
    ("", 0),
    ("# none\n\n \t\r\n", 0),
    ("operation 2 updateLocation", 0),
    ("operation\t2   updateLocation\r\n", 0),
    (" error 27 absentSubscriber # of MAP\n", 0),
    ("context 0.4.0.0.1.0.1.3 networkLocUpContext-v3\n", 0),
    ("operation -1 negative\n", 0),
    ("operations 2 updateLocation\n", 1),
    ("operation 2\n", 1),
    (
        "# none\noperation 2 updateLocation\noperation 2 update Location\n",
        3,
    ),
    ("operation two updateLocation\n", 1),
    ("operation 2 \"updateLocation\"\n", 1),
    ("\n\noperation", 3),
];

#[test]
fn lists_of_names(rt: HostRuntime) -> Result<(), Fail> {
    for (list, line) in LISTS {
        let answer = read_names(rt.alloc(), list.as_bytes());
        let is_so = match answer {
            Ok(_) => *line == 0,
            Err(NamesFault::BadLine(number)) => number == *line,
            Err(NamesFault::OutOfMemory) => false,
        };
        assert!(rt; is_so, "at {list:?}");
    }
    Ok(())
}

/// Names of each kind, of which some have one number.
const LIST: &str =
    "operation 46 mo-ForwardSM\nerror 46 noSubscriberReply\ncontext 46 none\noperation 46 later\n";

/// Whether the list has this name for it.
fn has_name(alloc: Global, kind: NameKind, key: &str, wanted: Option<&str>) -> bool {
    match read_names(alloc, LIST.as_bytes()) {
        Ok(names) => name_for(names.as_slice(), kind, key) == wanted,
        Err(_) => false,
    }
}

#[test]
fn names_by_kind_and_number(rt: HostRuntime) -> Result<(), Fail> {
    let rows = [
        (NameKind::Operation, "46", Some("mo-ForwardSM")),
        (NameKind::Error, "46", Some("noSubscriberReply")),
        (NameKind::Context, "46", Some("none")),
        (NameKind::Error, "4", None),
        (NameKind::Error, "046", None),
    ];
    for (kind, key, wanted) in rows {
        assert!(rt; has_name(rt.alloc(), kind, key, wanted), "at {key}");
    }
    Ok(())
}

/// A list of names of MAP.
const MAP: &str =
    "operation 2 updateLocation\noperation 46 mo-ForwardSM\nerror 27 absentSubscriber\ncontext 0.4.0.0.1.0.1.3 networkLocUpContext-v3\n";

/// Octets, what they name, and how their object ends.
const NAMING: &[(&[u8], &str, &str)] = &[
    // A Begin with an AARQ and an Invoke.
    (
        &[
            0x62, 0x2d, 0x48, 0x01, 0x07, 0x6b, 0x1e, 0x28, 0x1c, 0x06, 0x07, 0x00, 0x11, 0x86,
            0x05, 0x01, 0x01, 0x01, 0xa0, 0x11, 0x60, 0x0f, 0x80, 0x02, 0x07, 0x80, 0xa1, 0x09,
            0x06, 0x07, 0x04, 0x00, 0x00, 0x01, 0x00, 0x01, 0x03, 0x6c, 0x08, 0xa1, 0x06, 0x02,
            0x01, 0x01, 0x02, 0x01, 0x02,
        ],
        "; context 0.4.0.0.1.0.1.3 networkLocUpContext-v3; invoke 1 updateLocation",
        "\"good\":true,\"context\":\"0.4.0.0.1.0.1.3\",\"context_name\":\"networkLocUpContext-v3\",\"components\":[{\"kind\":\"invoke\",\"id\":1,\"operation\":\"updateLocation\"}]}\n",
    ),
    // Each other kind of component: a result with its code and one without, an error, a Reject, a result that isn't
    // the last, a global code.
    (
        &[
            0x64, 0x38, 0x49, 0x01, 0x07, 0x6c, 0x33, 0xa2, 0x08, 0x02, 0x01, 0x01, 0x30, 0x03,
            0x02, 0x01, 0x2e, 0xa2, 0x03, 0x02, 0x01, 0x02, 0xa3, 0x06, 0x02, 0x01, 0x03, 0x02,
            0x01, 0x1b, 0xa4, 0x06, 0x02, 0x01, 0x04, 0x80, 0x01, 0x00, 0xa7, 0x08, 0x02, 0x01,
            0x05, 0x30, 0x03, 0x02, 0x01, 0x2e, 0xa3, 0x08, 0x02, 0x01, 0x06, 0x06, 0x03, 0x2a,
            0x03, 0x04,
        ],
        "; result 1 mo-ForwardSM; result 2; error 3 absentSubscriber; reject 4; result more 5 mo-ForwardSM; error 6 1.2.3.4",
        "\"good\":true,\"components\":[{\"kind\":\"result\",\"id\":1,\"operation\":\"mo-ForwardSM\"},{\"kind\":\"result\",\"id\":2},{\"kind\":\"error\",\"id\":3,\"error\":\"absentSubscriber\"},{\"kind\":\"reject\",\"id\":4},{\"kind\":\"result more\",\"id\":5,\"operation\":\"mo-ForwardSM\"},{\"kind\":\"error\",\"id\":6,\"error\":\"1.2.3.4\"}]}\n",
    ),
    // The second component is none.
    (
        &[
            0x62, 0x0f, 0x48, 0x01, 0x07, 0x6c, 0x0a, 0xa1, 0x06, 0x02, 0x01, 0x01, 0x02, 0x01,
            0x02, 0x04, 0x00,
        ],
        "; invoke 1 updateLocation",
        "\"found\":\"0x04\",\"components\":[{\"kind\":\"invoke\",\"id\":1,\"operation\":\"updateLocation\"}]}\n",
    ),
    // The list has no such operation; its errors aren't looked at.
    (
        &[
            0x62, 0x0d, 0x48, 0x01, 0x07, 0x6c, 0x08, 0xa1, 0x06, 0x02, 0x01, 0xff, 0x02, 0x01,
            0x1b,
        ],
        "; invoke -1 27",
        "\"good\":true,\"components\":[{\"kind\":\"invoke\",\"id\":-1,\"operation\":\"27\"}]}\n",
    ),
    // A Reject that names no invocation.
    (
        &[
            0x62, 0x0c, 0x48, 0x01, 0x07, 0x6c, 0x07, 0xa4, 0x05, 0x05, 0x00, 0x80, 0x01, 0x00,
        ],
        "; reject -",
        "\"good\":true,\"components\":[{\"kind\":\"reject\",\"id\":null}]}\n",
    ),
    // A global code with a number above 4,294,967,295.
    (
        &[
            0x64, 0x12, 0x49, 0x01, 0x07, 0x6c, 0x0d, 0xa3, 0x0b, 0x02, 0x01, 0x01, 0x06, 0x06,
            0x2a, 0x90, 0x80, 0x80, 0x80, 0x00,
        ],
        "; error 1 0x2a9080808000",
        "\"good\":true,\"components\":[{\"kind\":\"error\",\"id\":1,\"error\":\"0x2a9080808000\"}]}\n",
    ),
    // A dialogue portion that can't be read.
    (
        &[
            0x62, 0x11, 0x48, 0x01, 0x07, 0x6b, 0x02, 0x04, 0x00, 0x6c, 0x08, 0xa1, 0x06, 0x02,
            0x01, 0x01, 0x02, 0x01, 0x02,
        ],
        "; invoke 1 updateLocation",
        ",\"components\":[{\"kind\":\"invoke\",\"id\":1,\"operation\":\"updateLocation\"}]}\n",
    ),
    // No component, and no message.
    (&[0x62, 0x03, 0x48, 0x01, 0x07], "", "\"good\":true}\n"),
    (&[0x62, 0x03, 0x49, 0x01, 0x07], "", "\"found\":\"0x49\"}\n"),
];

/// Whether the object of octets ends so, by these names.
fn ends_so(alloc: Global, names: &[Named<'_>], octets: &[u8], end: &str) -> bool {
    let form = Form {
        layout: Layout::Json,
        names: Some(names),
    };
    let mut reader = octets;
    let mut out = Vec::new(alloc);
    judge_stream(alloc, form, &mut reader, &mut out).is_ok() && out.ends_with(end.as_bytes())
}

/// Whether octets name this by a list, and their object ends so.
fn names(alloc: Global, list: &str, octets: &[u8], wanted: &str, end: &str) -> bool {
    let Ok(names) = read_names(alloc, list.as_bytes()) else {
        return false;
    };
    match names_text(alloc, names.as_slice(), octets) {
        Ok(text) => text.as_str() == wanted && ends_so(alloc, names.as_slice(), octets, end),
        Err(_) => false,
    }
}

#[test]
fn names_in_messages(rt: HostRuntime) -> Result<(), Fail> {
    for (octets, wanted, end) in NAMING {
        assert!(rt;
            names(rt.alloc(), MAP, octets, wanted, end),
            "at {wanted:?}"
        );
    }
    let (first, _, _) = NAMING[0];
    let numbers = "; context 0.4.0.0.1.0.1.3; invoke 1 2";
    let end =
        "\"good\":true,\"context\":\"0.4.0.0.1.0.1.3\",\"components\":[{\"kind\":\"invoke\",\"id\":1,\"operation\":\"2\"}]}\n";
    assert!(rt; names(rt.alloc(), "", first, numbers, end));
    Ok(())
}
