//! Stories that say what they expect, and what is told of them. The texts were written from docs/FORMATS.md.

use std::alloc::Global;
use std::test::Fail;
use tcap_stories::story_text;

/// Stories, what is told of each, and whether it has passed.
const ROWS: &[(&str, &str, bool)] = &[
    // Nothing is played: no line at all, or none but skipped ones, an idle limit and expectations.
    ("", "no line to play\n", false),
    ("\n", "no line to play\n", false),
    ("# a\n\n# b\n", "no line to play\n", false),
    ("idle 5", "no line to play\n", false),
    ("idle 5\n\n", "no line to play\n", false),
    ("expect nothing\n", "no line to play\n", false),
    (
        "expect A new 1",
        "line 1 failed: expected A new 1, found nothing\nno line to play\n",
        false,
    ),
    ("A new", "1 A new 1\n", true),
    ("# a\n\nA new", "3 A new 1\n", true),
    ("A new\nexpect A new 1", "1 A new 1\n", true),
    ("# a\nA new\n\n# b\nexpect A new 1\n", "2 A new 1\n", true),
    (
        "A new\nexpect A new 2",
        "1 A new 1\nline 2 failed: expected A new 2, found A new 1\n",
        false,
    ),
    (
        "A new\nexpect nothing",
        "1 A new 1\nline 2 failed: expected nothing, found A new 1\n",
        false,
    ),
    (
        "A new\nexpect A new 1\nexpect A new 2",
        "1 A new 1\nline 3 failed: expected A new 2, found nothing\n",
        false,
    ),
    ("A new\nexpect A new 1\nexpect nothing", "1 A new 1\n", true),
    ("advance 1\nexpect nothing", "", true),
    ("expect nothing\nA new", "2 A new 1\n", true),
    (
        "expect A new 1\nA new",
        "line 1 failed: expected A new 1, found nothing\n2 A new 1\n",
        false,
    ),
    // More comes than is expected; the story goes on.
    (
        "B raw 62104804000000016c08a10602010102010a\nexpect B begin 1 context - info -\nA new",
        "1 B begin 1 context - info -\n1 B invoked 1 id 1 linked - op local 10 param -\nline 1 failed: expected nothing, found B invoked 1 id 1 linked - op local 10 param -\n3 A new 1\n",
        false,
    ),
    // Nothing is expected of a line: all may come.
    (
        "B raw 62104804000000016c08a10602010102010a\nA new\nexpect A new 1",
        "1 B begin 1 context - info -\n1 B invoked 1 id 1 linked - op local 10 param -\n2 A new 1\n",
        true,
    ),
    // A bad line ends the story, behind what is expected of the line before.
    (
        "A new\nexpect A new 3\nA nwe\nexpect nothing",
        "1 A new 1\nline 2 failed: expected A new 3, found A new 1\nline 3 bad: word 2, one of new invoke last more error reject cancel uni begin continue end beginto prearranged abort raw rawfrom\n",
        false,
    ),
    // An idle limit, and what it brings.
    (
        "idle 500\nexpect nothing\nA new\nA begin 1 - -\nadvance 500\nexpect A pabort 1 idle",
        "3 A new 1\n4 A send A1 6206480400000001\n5 A pabort 1 idle\n",
        true,
    ),
    // A refusal is told, and expected, by number and name.
    (
        "A cancel 1 1\nexpect A refused 2 unknown dialogue",
        "1 A refused 2 unknown dialogue\n",
        true,
    ),
    // A refusal that nothing names has failed: at the line itself, and behind the last of a story.
    (
        "A new\nA invoke 1 1 1 10 0 - -",
        "1 A new 1\n2 A refused 6 bad timeout\nline 2 failed: expected nothing, found A refused 6 bad timeout\n",
        false,
    ),
    (
        "A cancel 1 1\nA new\nexpect A new 1",
        "1 A refused 2 unknown dialogue\nline 1 failed: expected nothing, found A refused 2 unknown dialogue\n2 A new 1\n",
        false,
    ),
    // One that is named by another number has failed once.
    (
        "A cancel 1 1\nexpect A refused 5 no such invocation",
        "1 A refused 2 unknown dialogue\nline 2 failed: expected A refused 5 no such invocation, found A refused 2 unknown dialogue\n",
        false,
    ),
];

/// Whether this is told of a story.
fn is_told(alloc: Global, script: &str, told: &str, good: bool) -> bool {
    match story_text(alloc, script.as_bytes()) {
        Ok(story) => story.text.as_slice() == told.as_bytes() && story.good == good,
        Err(_) => false,
    }
}

/// What is told of each story.
#[test]
fn expectations(rt: HostRuntime) -> Result<(), Fail> {
    for (script, told, good) in ROWS {
        assert!(rt; is_told(rt.alloc(), script, told, *good), "{script}");
    }
    Ok(())
}
