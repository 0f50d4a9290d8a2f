//! Stories with one mistake each, and what is told of them. The texts were written from docs/FORMATS.md.

use std::alloc::Global;
use std::test::Fail;
use tcap_stories::story_text;

/// Lines behind `A new`, and what is told of them.
const ROWS: &[(&str, &str)] = &[
    // A word left out, of a request and of a line without a side.
    (
        "A invoke 1 1 1 10 1000 -",
        "line 2 bad: word 9 is missing, octets in hexadecimal, or -\n",
    ),
    (
        "A begin 1 -",
        "line 2 bad: word 5 is missing, octets in hexadecimal, or -\n",
    ),
    (
        "advance",
        "line 2 bad: word 2 is missing, a number from 0 to 18446744073709551615\n",
    ),
    (
        "A",
        "line 2 bad: word 2 is missing, one of new invoke last more error reject cancel uni begin continue end beginto prearranged abort raw rawfrom\n",
    ),
    // A word too many, and a remark behind a line.
    ("A begin 1 - - -", "line 2 bad: word 6, nothing more\n"),
    (
        "A begin 1 - - # opens",
        "line 2 bad: word 6, nothing more\n",
    ),
    // Names that aren't.
    (
        "A begn 1 - -",
        "line 2 bad: word 2, one of new invoke last more error reject cancel uni begin continue end beginto prearranged abort raw rawfrom\n",
    ),
    (
        "C new",
        "line 2 bad: word 1, one of A B deliver again lose advance idle expect\n",
    ),
    (
        "a new",
        "line 2 bad: word 1, one of A B deliver again lose advance idle expect\n",
    ),
    (
        "A deliver A1",
        "line 2 bad: word 2, one of new invoke last more error reject cancel uni begin continue end beginto prearranged abort raw rawfrom\n",
    ),
    // Spaces, tabs and line ends.
    (
        "A  begin 1 - -",
        "line 2 bad: word 2, one space between words\n",
    ),
    (
        "A begin 1 - - ",
        "line 2 bad: word 6, one space between words\n",
    ),
    (
        " A begin 1 - -",
        "line 2 bad: word 1, one space between words\n",
    ),
    ("A begin\t1 - -", "line 2 bad: word 2, no character 09\n"),
    ("A begin 1 - -\r", "line 2 bad: word 5, no character 0d\n"),
    // They are wrong in what is expected too: what can't be seen isn't compared. Its own words may be any.
    ("expect A new 1\r", "line 2 bad: word 4, no character 0d\n"),
    ("expect A new\t1", "line 2 bad: word 3, no character 09\n"),
    ("expect \u{1b}[2J", "line 2 bad: word 2, no character 1b\n"),
    (
        "expect A n\u{e9}w 1",
        "line 2 bad: word 3, no character c3\n",
    ),
    (
        "expect nothing ",
        "line 2 bad: word 3, one space between words\n",
    ),
    (
        "expect  nothing",
        "line 2 bad: word 2, one space between words\n",
    ),
    (
        "expect A  new 1\r",
        "line 2 bad: word 3, one space between words\n",
    ),
    ("expect ", "line 2 bad: word 2, one space between words\n"),
    ("expect\tA new 1", "line 2 bad: word 1, no character 09\n"),
    ("expect x", "line 2 failed: expected x, found A new 1\n"),
    // Numbers.
    (
        "A invoke 01 1 1 10 1000 - -",
        "line 2 bad: word 3, a number without leading zeros\n",
    ),
    (
        "A invoke 1 1 5 10 1000 - -",
        "line 2 bad: word 5, a number from 1 to 4\n",
    ),
    (
        "A invoke 1 128 1 10 1000 - -",
        "line 2 bad: word 4, a number from -128 to 127\n",
    ),
    (
        "A invoke 1 1 1 10 15s - -",
        "line 2 bad: word 7, a number from 0 to 18446744073709551615\n",
    ),
    (
        "A invoke 1 1 1 - 1000 - -",
        "line 2 bad: word 6, a number from -2147483648 to 2147483647\n",
    ),
    (
        "A reject 1 - general 128",
        "line 2 bad: word 6, a number from 0 to 127\n",
    ),
    (
        "A cancel 1 -",
        "line 2 bad: word 4, a number from -128 to 127\n",
    ),
    // Hexadecimal.
    (
        "A begin 1 - 123",
        "line 2 bad: word 5, an even number of hexadecimal digits\n",
    ),
    (
        "A begin 1 - 0x12",
        "line 2 bad: word 5, octets in hexadecimal, or -\n",
    ),
    (
        "A raw 62 06 48 04 00 00 00 01",
        "line 2 bad: word 4, nothing more\n",
    ),
    (
        "A begin 1 0.4.0.0.1.0.1.3 -",
        "line 2 bad: word 4, an application context in hexadecimal, or -\n",
    ),
    (
        "A last 1 1 - 0401AA",
        "line 2 bad: word 6, - behind a code that is -\n",
    ),
    // Words of a list.
    (
        "A abort 1 abandon -",
        "line 2 bad: word 4, user or unsupported\n",
    ),
    (
        "A reject 1 1 problem 0",
        "line 2 bad: word 5, general, invoke, result or error\n",
    ),
    // Messages.
    ("deliver 1", "line 2 bad: word 2, a message, as A1\n"),
    (
        "deliver A7",
        "line 2 bad: word 2, a message to the other side that was neither received nor lost\n",
    ),
    (
        "A begin 1 - -\ndeliver A1\ndeliver A1",
        "2 A send A1 6206480400000001\n3 B begin 1 context - info -\nline 4 bad: word 2, a message to the other side that was neither received nor lost\n",
    ),
    (
        "again A1",
        "line 2 bad: word 2, a message that was received\n",
    ),
    (
        "lose B1",
        "line 2 bad: word 2, a message that was neither received nor lost\n",
    ),
    // Lines that stand elsewhere, or say nothing.
    (
        "idle 5",
        "line 2 bad: word 1, idle in the first line alone\n",
    ),
    (
        "idle 05",
        "line 2 bad: word 2, a number without leading zeros\n",
    ),
    (
        "expect",
        "line 2 bad: word 2 is missing, the text of an output or nothing\n",
    ),
    // No mistake of form: a refusal by number and name, which nothing expects.
    (
        "A invoke 1 1 1 10 1000 - 0402AA",
        "2 A refused 12 bad parameter\nline 2 failed: expected nothing, found A refused 12 bad parameter\n",
    ),
    (
        "A invoke 2 1 1 10 1000 - -",
        "2 A refused 2 unknown dialogue\nline 2 failed: expected nothing, found A refused 2 unknown dialogue\n",
    ),
    (
        "A invoke 1 1 1 10 0 - -",
        "2 A refused 6 bad timeout\nline 2 failed: expected nothing, found A refused 6 bad timeout\n",
    ),
    (
        "A cancel 1 1",
        "2 A refused 5 no such invocation\nline 2 failed: expected nothing, found A refused 5 no such invocation\n",
    ),
    (
        "A begin 1 80 -",
        "2 A refused 11 bad oid\nline 2 failed: expected nothing, found A refused 11 bad oid\n",
    ),
];

/// Whether this is told of a line behind `A new`, and the story has failed.
fn is_told(alloc: Global, line: &str, told: &str) -> bool {
    let mut script = Vec::new(alloc);
    let mut text = Vec::new(alloc);
    let made = script.extend_from_slice(b"A new\n").is_ok()
        && script.extend_from_slice(line.as_bytes()).is_ok()
        && text.extend_from_slice(b"1 A new 1\n").is_ok()
        && text.extend_from_slice(told.as_bytes()).is_ok();
    match story_text(alloc, &script) {
        Ok(story) => { made && story.text.as_slice() == text.as_slice() && !story.good }
        Err(_) => false,
    }
}

/// What is told of each line.
#[test]
fn mistakes(rt: HostRuntime) -> Result<(), Fail> {
    for (line, told) in ROWS {
        assert!(rt; is_told(rt.alloc(), line, told), "{line}");
    }
    Ok(())
}
