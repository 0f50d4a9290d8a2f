//! The numbers of a component are those that its octets can be: its types say so. Nothing is done.

ghost use Rattle.std.specs.Option.{option_map};
ghost use Rattle.tcap_component.specs.Component.{IsIdentifier, IsIdentifierIfAny, IsCode, IsBody, InRange};
ghost use Rattle.tcap_component.specs.Problem.{IsProblem};
ghost use Rattle.tcap_component.specs.Views.{code_parts, body_parts, problem_parts, component_parts};
ghost use Rattle.tcap_component.specs.Written.{CanCode, HasCode, coded_part};

use crate::component::{Body, Code, Component};
use crate::problem::Problem;

/// An identifier is one octet.
#[inline(always)]
fn identifier(_id: i8)
    ensures { IsIdentifier _id }
{}

/// An optional identifier is one octet.
#[inline(always)]
fn identifier_if_any(id: Option<i8>)
    ensures { IsIdentifierIfAny id }
{
    if let Some(id) = id {
        identifier(id);
    }
}

/// A local code has four octets at most.
#[inline(always)]
fn code(code: Code<'_>)
    requires { CanCode (code_parts code) }
    ensures { IsCode (code_parts code.entry) }
{
    match code {
        Code::Local(_) | Code::Global(_) => {}
    }
}

/// The code of a result's body is one.
#[inline(always)]
fn body(body: Option<Body<'_>>)
    requires { HasCode (option_map body_parts body) }
    ensures { IsBody (option_map body_parts body.entry) }
{
    if let Some(body) = body {
        code(body.code);
    }
}

/// A problem's code is at most 127.
#[inline(always)]
fn problem(problem: Problem)
    ensures { IsProblem (problem_parts problem) }
{}

/// The numbers of a component whose code can be written.
#[inline(always)]
pub(crate) fn in_range(component: &Component<'_>)
    requires { HasCode (coded_part (component_parts component.now)) }
    ensures { InRange (component_parts component.now) }
{
    match *component {
        Component::Invoke {
            id,
            linked,
            code: named,
            ..
        } => {
            identifier(id);
            identifier_if_any(linked);
            code(named);
        }
        Component::ResultLast { id, body: held } => {
            identifier(id);
            body(held);
        }
        Component::ErrorBack {
            id,
            code: named,
            ..
        } => {
            identifier(id);
            code(named);
        }
        Component::RejectBack { id, problem: told } => {
            identifier_if_any(id);
            problem(told);
        }
        Component::ResultMore { id, body: held } => {
            identifier(id);
            body(held);
        }
    }
}
