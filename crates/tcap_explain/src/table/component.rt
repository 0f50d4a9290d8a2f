//! The tables of components (Q.773, Component portion).

ghost use Rattle.std.specs.Prelude.{◌≡◌};
ghost use Rattle.tcap_explain.specs.ComponentTable.{component_next, component_may_end};

use crate::component_tag as tag;
use crate::contents::Contents;
use crate::line::{ComponentLine, Line};
use crate::table::{ELEMENTS, END, Inside, either, elements, listed, octets};

const INVOKE_ID: Line = Line::Component(ComponentLine::InvokeId);

const LINKED_OR_CODE: Line = Line::Component(ComponentLine::LinkedOrCode);

const CODE: Line = Line::Component(ComponentLine::Code);

const PARAMETER: Line = Line::Component(ComponentLine::Parameter);

const RESULT_ID: Line = Line::Component(ComponentLine::ResultId);

const RESULT_BODY: Line = Line::Component(ComponentLine::ResultBody);

const ERROR_ID: Line = Line::Component(ComponentLine::ErrorId);

const REJECT_ID: Line = Line::Component(ComponentLine::RejectId);

const PROBLEM: Line = Line::Component(ComponentLine::Problem);

const RESULT_LIST: Line = Line::Component(ComponentLine::ResultList);

const RESULT_LIST_SECOND: Line = Line::Component(ComponentLine::ResultListSecond);

/// The component: A1, A2, A3, A4 or A7.
fn component_type(tag: &[u8]) -> Option<(Inside, Line)>
    ensures { result ≡ component_next ComponentLine.ComponentType tag.now }
{
    either(
        listed(tag::INVOKE, tag, ELEMENTS, INVOKE_ID, ELEMENTS),
        either(
            listed(
                tag::RETURN_RESULT_LAST,
                tag,
                RESULT_LIST,
                RESULT_ID,
                ELEMENTS,
            ),
            either(
                listed(tag::RETURN_ERROR, tag, ELEMENTS, ERROR_ID, ELEMENTS),
                either(
                    listed(tag::REJECT, tag, ELEMENTS, REJECT_ID, ELEMENTS),
                    listed(
                        tag::RETURN_RESULT_NOT_LAST,
                        tag,
                        RESULT_LIST,
                        RESULT_ID,
                        ELEMENTS,
                    ),
                ),
            ),
        ),
    )
}

/// Invoke, behind 02: [80], 02 or 06.
fn linked_or_code(tag: &[u8]) -> Option<(Inside, Line)>
    ensures { result ≡ component_next ComponentLine.LinkedOrCode tag.now }
{
    either(
        octets(tag::LINKED_ID, tag, Contents::Identifier, CODE),
        either(
            octets(tag::INTEGER, tag, Contents::LocalCode, PARAMETER),
            octets(
                tag::OBJECT_IDENTIFIER,
                tag,
                Contents::ObjectIdentifier,
                PARAMETER,
            ),
        ),
    )
}

/// Return Error, behind 02; Invoke, behind 80; the 30 of a result: 02 or 06.
fn code(tag: &[u8]) -> Option<(Inside, Line)>
    ensures { result ≡ component_next ComponentLine.Code tag.now }
{
    either(
        octets(tag::INTEGER, tag, Contents::LocalCode, PARAMETER),
        octets(
            tag::OBJECT_IDENTIFIER,
            tag,
            Contents::ObjectIdentifier,
            PARAMETER,
        ),
    )
}

/// Reject: 02 or 05.
fn reject_id(tag: &[u8]) -> Option<(Inside, Line)>
    ensures { result ≡ component_next ComponentLine.RejectId tag.now }
{
    either(
        octets(tag::INTEGER, tag, Contents::Identifier, PROBLEM),
        octets(tag::NULL, tag, Contents::Null, PROBLEM),
    )
}

/// Reject, behind 02 or 05: 80, 81, 82 or 83.
fn problem(tag: &[u8]) -> Option<(Inside, Line)>
    ensures { result ≡ component_next ComponentLine.Problem tag.now }
{
    either(
        octets(tag::GENERAL_PROBLEM, tag, Contents::ProblemCode, END),
        either(
            octets(tag::INVOKE_PROBLEM, tag, Contents::ProblemCode, END),
            either(
                octets(tag::RETURN_RESULT_PROBLEM, tag, Contents::ProblemCode, END),
                octets(tag::RETURN_ERROR_PROBLEM, tag, Contents::ProblemCode, END),
            ),
        ),
    )
}

/// The list of a Return Result, behind its first element.
fn result_list_second(tag: &[u8]) -> Option<(Inside, Line)>
    ensures { result ≡ component_next ComponentLine.ResultListSecond tag.now }
{
    either(
        elements(tag::SEQUENCE, tag, ELEMENTS, ELEMENTS),
        Some((Inside::Octets(Contents::Any), ELEMENTS)),
    )
}

/// What an element with this tag holds at a line of the tables of components, and which line follows it.
pub(crate) fn component_next(line: ComponentLine, tag: &[u8]) -> Option<(Inside, Line)>
    ensures { result ≡ component_next line tag.now }
{
    match line {
        ComponentLine::ComponentType => component_type(tag),
        ComponentLine::InvokeId => octets(tag::INTEGER, tag, Contents::Identifier, LINKED_OR_CODE),
        ComponentLine::LinkedOrCode => linked_or_code(tag),
        ComponentLine::Code => code(tag),
        ComponentLine::Parameter => Some((Inside::Octets(Contents::Any), END)),
        ComponentLine::ResultId => octets(tag::INTEGER, tag, Contents::Identifier, RESULT_BODY),
        ComponentLine::ResultBody => elements(tag::SEQUENCE, tag, CODE, END),
        ComponentLine::ErrorId => octets(tag::INTEGER, tag, Contents::Identifier, CODE),
        ComponentLine::RejectId => reject_id(tag),
        ComponentLine::Problem => problem(tag),
        ComponentLine::ResultList => Some((Inside::Octets(Contents::Any), RESULT_LIST_SECOND)),
        ComponentLine::ResultListSecond => result_list_second(tag),
    }
}

/// Whether the contents may end at a line of the tables of components.
pub(crate) fn component_may_end(line: ComponentLine) -> bool
    ensures { result ≡ component_may_end line }
{
    match line {
        ComponentLine::Parameter
        | ComponentLine::ResultBody
        | ComponentLine::ResultList
        | ComponentLine::ResultListSecond => true,
        ComponentLine::ComponentType
        | ComponentLine::InvokeId
        | ComponentLine::LinkedOrCode
        | ComponentLine::Code
        | ComponentLine::ResultId
        | ComponentLine::ErrorId
        | ComponentLine::RejectId
        | ComponentLine::Problem => false,
    }
}
