//! What is told of stories: as lines, or in JUnit's XML.

ghost use Rattle.std.specs.Prelude.{◌≡◌, ◌++◌, OnOk, IfOk};
ghost use Rattle.tcap_story_cmd.specs.Report.{case_front, case_text, closing_mark, count_words, counts_words, end_of, escaped, front_of, lines_words, opening_mark, plain, plain_name, reported, spelled, suite_counts, suite_front, suite_parts, suite_words, verdict_words};

use crate::tally::Tally;
use crate::verdict::Verdict;
use ber_core::OutOfMemory;
use itoa::Buffer;
use std::alloc::Allocator;

/// How stories are told.
#[derive(Clone, Copy, Debug, PartialEq, Eq)]
pub enum Report {
    /// As lines.
    Lines,
    /// In JUnit's XML.
    JUnit,
}

/// What stands before all stories.
pub(crate) fn front_of(report: Report) -> &'static str
    ensures { result.now ≡ front_of report }
{
    match report {
        Report::Lines => "",
        Report::JUnit => "<?xml version=\"1.0\" encoding=\"UTF-8\"?>\n<testsuites>\n",
    }
}

/// An octet of a name as it is told.
fn plain(octet: u8) -> u8
    ensures { result ≡ plain octet }
{
    match octet {
        b' '..=b'~' | 128.. => octet,
        _ => b'?',
    }
}

/// A name as it is told.
fn plain_name<A: Allocator>(alloc: A, name: &[u8]) -> Result<Vec<u8, A>, OutOfMemory>
    ensures { IfOk result (λ told. told.items ≡ plain_name name.now) }
{
    let mut told = Vec::new(alloc);
    for octet in name {
        told.extend_from_slice(&[plain(*octet)])?;
    }
    Ok(told)
}

/// How an octet is written in XML.
fn spelled(octet: &u8) -> &[u8]
    ensures { result.now ≡ spelled octet.now }
{
    match octet {
        b'&' => b"&amp;",
        b'<' => b"&lt;",
        b'>' => b"&gt;",
        b'"' => b"&quot;",
        b'\n' | b' '..=b'~' => std::slice::from_ref(octet),
        _ => b"?",
    }
}

/// Octets as XML writes them.
fn escaped<A: Allocator>(alloc: A, octets: &[u8]) -> Result<Vec<u8, A>, OutOfMemory>
    ensures { IfOk result (λ text. text.items ≡ escaped octets.now) }
{
    let mut text = Vec::new(alloc);
    for octet in octets {
        text.extend_from_slice(spelled(octet))?;
    }
    Ok(text)
}

/// How many tests, failures and errors a test suite of one story has.
fn suite_counts(verdict: Verdict) -> &'static str
    ensures { result.now ≡ suite_counts verdict }
{
    match verdict {
        Verdict::Passed => "\" tests=\"1\" failures=\"0\" errors=\"0\">\n",
        Verdict::Failed => "\" tests=\"1\" failures=\"1\" errors=\"0\">\n",
        Verdict::NotRead => "\" tests=\"1\" failures=\"0\" errors=\"1\">\n",
    }
}

/// What stands before the text of a test case.
fn opening_mark(verdict: Verdict) -> &'static str
    ensures { result.now ≡ opening_mark verdict }
{
    match verdict {
        Verdict::Passed => "<system-out>",
        Verdict::Failed => "<failure message=\"failed\">",
        Verdict::NotRead => "<error message=\"not read\">",
    }
}

/// What stands behind it.
fn closing_mark(verdict: Verdict) -> &'static str
    ensures { result.now ≡ closing_mark verdict }
{
    match verdict {
        Verdict::Passed => "</system-out>\n</testcase>\n</testsuite>\n",
        Verdict::Failed => "</failure>\n</testcase>\n</testsuite>\n",
        Verdict::NotRead => "</error>\n</testcase>\n</testsuite>\n",
    }
}

/// Adds the front of a test suite of this name, by the verdict.
fn add_suite_front<A: Allocator>(
    text: &mut Vec<u8, A>,
    name: &[u8],
    verdict: Verdict,
) -> Result<(), OutOfMemory>
    ensures { OnOk result (text.new.items ≡ text.old.items ++ suite_front name.now verdict) }
{
    text.extend_from_slice(b"<testsuite name=\"")?;
    text.extend_from_slice(name)?;
    Ok(text.extend_from_slice(suite_counts(verdict).as_bytes())?)
}

/// Adds the front of a test case of this name.
fn add_case_front<A: Allocator>(text: &mut Vec<u8, A>, name: &[u8]) -> Result<(), OutOfMemory>
    ensures { OnOk result (text.new.items ≡ text.old.items ++ case_front name.now) }
{
    text.extend_from_slice(b"<testcase classname=\"tcap_story\" name=\"")?;
    text.extend_from_slice(name)?;
    Ok(text.extend_from_slice(b"\">\n")?)
}

/// Adds the text of a test case, and the ends of it and of its test suite.
fn add_case_text<A: Allocator>(
    text: &mut Vec<u8, A>,
    verdict: Verdict,
    told: &[u8],
) -> Result<(), OutOfMemory>
    ensures { OnOk result (text.new.items ≡ text.old.items ++ case_text verdict told.now) }
{
    text.extend_from_slice(opening_mark(verdict).as_bytes())?;
    text.extend_from_slice(told)?;
    Ok(text.extend_from_slice(closing_mark(verdict).as_bytes())?)
}

/// Adds a test suite of this name with one test case of this name and text.
fn add_parts<A: Allocator>(
    text: &mut Vec<u8, A>,
    name: &[u8],
    verdict: Verdict,
    told: &[u8],
) -> Result<(), OutOfMemory>
    ensures { OnOk result (text.new.items ≡ text.old.items ++ suite_parts name.now verdict told.now) }
{
    add_suite_front(text, name, verdict)?;
    add_case_front(text, name)?;
    add_case_text(text, verdict, told)
}

/// Adds a story of this name as a test suite.
fn add_suite<A: Allocator + Copy>(
    alloc: A,
    text: &mut Vec<u8, A>,
    name: &[u8],
    verdict: Verdict,
    told: &[u8],
) -> Result<(), OutOfMemory>
    ensures { OnOk result (text.new.items ≡ text.old.items ++ suite_words name.now verdict told.now) }
{
    let name = escaped(alloc, name)?;
    let told = escaped(alloc, told)?;
    add_parts(text, name.as_slice(), verdict, told.as_slice())
}

/// The words of a verdict.
fn verdict_words(verdict: Verdict) -> &'static str
    ensures { result.now ≡ verdict_words verdict }
{
    match verdict {
        Verdict::Passed => "passed\n",
        Verdict::Failed => "failed\n",
        Verdict::NotRead => "not read\n",
    }
}

/// Adds a story of this name as lines.
fn add_lines<A: Allocator>(
    text: &mut Vec<u8, A>,
    name: &[u8],
    verdict: Verdict,
    told: &[u8],
) -> Result<(), OutOfMemory>
    ensures { OnOk result (text.new.items ≡ text.old.items ++ lines_words name.now verdict told.now) }
{
    text.extend_from_slice(b"story ")?;
    text.extend_from_slice(name)?;
    text.extend_from_slice(b"\n")?;
    text.extend_from_slice(told)?;
    Ok(text.extend_from_slice(verdict_words(verdict).as_bytes())?)
}

/// Adds the report on a story of this name, with this verdict and what is told of it.
pub(crate) fn add_report<A: Allocator + Copy>(
    alloc: A,
    text: &mut Vec<u8, A>,
    report: Report,
    name: &[u8],
    verdict: Verdict,
    told: &[u8],
) -> Result<(), OutOfMemory>
    ensures { OnOk result (text.new.items ≡ text.old.items ++ reported report name.now verdict told.now) }
{
    let name = plain_name(alloc, name)?;
    match report {
        Report::Lines => add_lines(text, name.as_slice(), verdict, told),
        Report::JUnit => add_suite(alloc, text, name.as_slice(), verdict, told),
    }
}

/// Adds a number and words.
fn add_count<A: Allocator>(
    text: &mut Vec<u8, A>,
    count: u64,
    words: &[u8],
) -> Result<(), OutOfMemory>
    ensures { OnOk result (text.new.items ≡ text.old.items ++ count_words count words.now) }
{
    let mut buffer = Buffer::new();
    text.extend_from_slice(buffer.format(count).as_bytes())?;
    Ok(text.extend_from_slice(words)?)
}

/// Adds how many stories have passed, how many have failed, and how many were not read.
fn add_counts<A: Allocator>(text: &mut Vec<u8, A>, tally: Tally) -> Result<(), OutOfMemory>
    ensures { OnOk result (text.new.items ≡ text.old.items ++ counts_words tally.passed tally.failed tally.not_read) }
{
    add_count(text, tally.passed, b" passed, ")?;
    add_count(text, tally.failed, b" failed, ")?;
    add_count(text, tally.not_read, b" not read\n")
}

/// Adds what stands behind all stories, of which so many have passed, have failed, and were not read.
pub(crate) fn add_end<A: Allocator>(
    text: &mut Vec<u8, A>,
    report: Report,
    tally: Tally,
) -> Result<(), OutOfMemory>
    ensures { OnOk result (text.new.items
        ≡ text.old.items ++ end_of report tally.passed tally.failed tally.not_read) }
{
    match report {
        Report::Lines => add_counts(text, tally),
        Report::JUnit => Ok(text.extend_from_slice(b"</testsuites>\n")?),
    }
}
