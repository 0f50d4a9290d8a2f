//! The operations of this register: where a subscriber's short messages go, and that a subscriber is there.

ghost use Rattle.std.specs.Prelude.{◌≤◌};
ghost use Rattle.tcap_component.specs.Problem.{problem_limit};

use ber_core::{take_content, take_only};
use std::alloc::Global;
use tcap_component::{Code, Kind, Problem, invoke_problem};
use tcap_engine::Fault;
use tcap_invocation::Class;
use tcap_register::{Operations, Reply};

/// The operation sendRoutingInfoForSM, of class 1.
const SEND_ROUTING_INFO: i32 = 45;

/// The operation noteSubscriberPresent, of class 4.
const NOTE_PRESENT: i32 = 48;

/// The error unknownSubscriber.
const UNKNOWN_SUBSCRIBER: i32 = 1;

/// The subscriber with the number 447700900001.
const NUMBER: [u8; 7] = [0x91, 0x44, 0x77, 0x00, 0x09, 0x00, 0x10];

/// What is told of that subscriber: the identity 234150000000001, at the node 447700900100.
const ROUTING_INFO: [u8; 23] = [
    0x30, 0x15, 0x04, 0x08, 0x32, 0x14, 0x05, 0x00, 0x00, 0x00, 0x00, 0xf1, 0xa0, 0x09, 0x81, 0x07,
    0x91, 0x44, 0x77, 0x00, 0x09, 0x10, 0x00,
];

/// The subscribers, and what became of the operations.
#[derive(Drop)]
pub struct Subscribers {
    alloc: Global,
    /// How often a subscriber was said to be there.
    pub present: u64,
    /// How many answers the engine refused.
    pub refused: u64,
}

/// A Reject with an Invoke problem, 0 to 127 (Q.773, Invoke Problem).
fn reject(code: u8) -> Reply
    requires { code ≤ problem_limit }
{
    Reply::Reject(Problem::new(Kind::Invoke, code).unwrap())
}

/// The number that sendRoutingInfoForSM asks about: the first in its SEQUENCE, with the tag 80.
fn number_in(parameter: Option<&[u8]>) -> Option<&[u8]> {
    let fields = take_only(parameter?, 0x30)?;
    let (number, _) = take_content(fields, 0x80)?;
    Some(number)
}

impl Subscribers {
    /// Those of this register.
    pub fn new(alloc: Global) -> Subscribers {
        Subscribers {
            alloc,
            present: 0,
            refused: 0,
        }
    }

    /// Where short messages to a subscriber go.
    fn routing_info(&self, parameter: Option<&[u8]>) -> Reply {
        let Some(number) = number_in(parameter) else {
            return reject(invoke_problem::MISTYPED_PARAMETER);
        };
        if number != NUMBER.as_slice() {
            return Reply::Failure {
                error: Code::Local(UNKNOWN_SUBSCRIBER),
                parameter: None,
            };
        }
        match ROUTING_INFO.to_vec(self.alloc) {
            Ok(info) => Reply::Success(Some(info)),
            Err(_) => reject(invoke_problem::RESOURCE_LIMITATION),
        }
    }
}

impl Operations<Global> for Subscribers {
    fn class_of(&self, code: &Code<'_>) -> Option<Class> {
        match code {
            Code::Local(SEND_ROUTING_INFO) => Some(Class::One),
            Code::Local(NOTE_PRESENT) => Some(Class::Four),
            Code::Local(_) | Code::Global(_) => None,
        }
    }

    fn answer(&mut self, code: &Code<'_>, parameter: Option<&[u8]>) -> Reply {
        if matches!(code, Code::Local(SEND_ROUTING_INFO)) {
            return self.routing_info(parameter);
        }
        self.present = self.present.saturating_add(1);
        Reply::Success(None)
    }

    fn refused(&mut self, _dialogue: u32, _id: Option<i8>, _fault: Fault) {
        self.refused = self.refused.saturating_add(1);
    }
}
