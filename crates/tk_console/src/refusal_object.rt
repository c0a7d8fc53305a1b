//! Refusals as JSON objects. The members are described in docs/OUTPUT.md.
use crate::message::message_of;
use crate::refusal::{Reason, Refusal};
use serde::Serialize;
use std::alloc::AllocError;
use tk_engines::RouteFault;
use tk_params::ParamKind;
use tk_tour::TourFault;
use tk_words::TextKind;

/// The object of a refusal, with its file if it is one of several.
#[derive(Drop, Serialize)]
pub struct RefusalObject<'a> {
    #[serde(skip_serializing_if = "Option::is_none")]
    file: Option<&'a str>,
    refused: Refused<'a>,
}

/// The members of a refusal.
#[derive(Drop, Serialize)]
struct Refused<'a> {
    #[serde(skip_serializing_if = "Option::is_none")]
    file: Option<&'a str>,
    #[serde(skip_serializing_if = "Option::is_none")]
    line: Option<u64>,
    #[serde(flatten, skip_serializing_if = "Option::is_none")]
    fault: Option<NamedFault>,
    message: String,
}

/// The values of a fault, which its message has after its name. As JSON, they are an array.
#[derive(Clone, Copy, Serialize)]
#[serde(untagged)]
enum Values {
    None([u32; 0]),
    Word((&'static str,)),
    One([u32; 1]),
    Two([u64; 2]),
    Costs([i64; 2]),
}

/// A fault by its name and, if it has one, its number, with its values.
#[derive(Clone, Copy, Serialize)]
struct NamedFault {
    #[serde(skip_serializing_if = "Option::is_none")]
    number: Option<u32>,
    name: &'static str,
    values: Values,
}

impl<'a> RefusalObject<'a> {
    /// The object of a refusal, with the name of its file if it is one of several.
    ///
    /// # Errors
    /// `AllocError` if memory runs out.
    pub fn of(
        rt: &HostRuntime,
        file: Option<&'a str>,
        refusal: &Refusal<'a>,
    ) -> Result<RefusalObject<'a>, AllocError> {
        Ok(RefusalObject {
            file,
            refused: Refused {
                file: refusal.file(),
                line: line_of(refusal.reason),
                fault: fault_of(refusal.reason),
                message: format!(in rt.alloc(); "{}", message_of(rt, refusal))?,
            },
        })
    }
}

/// The line of the fault of a file.
fn line_of(reason: Reason) -> Option<u64> {
    match reason {
        Reason::Text(fault) => Some(fault.line),
        Reason::Parameters(fault) | Reason::ProblemForParameters(fault) => Some(fault.line),
        _ => None,
    }
}

/// The fault that has a name.
fn fault_of(reason: Reason) -> Option<NamedFault> {
    match reason {
        Reason::Text(fault) => Some(of_text(fault.kind)),
        Reason::Parameters(fault) | Reason::ProblemForParameters(fault) => {
            Some(of_parameters(fault.kind))
        }
        Reason::Initial(fault) => of_initial(fault),
        Reason::InitialRoutes(fault) => Some(of_routes(fault)),
        Reason::Option(kind) => Some(of_parameters(kind)),
        _ => None,
    }
}

/// A fault without values.
fn plain(number: u32, name: &'static str) -> NamedFault {
    NamedFault {
        number: Some(number),
        name,
        values: Values::None([]),
    }
}

/// A fault with one number.
fn with(number: u32, name: &'static str, value: u32) -> NamedFault {
    NamedFault {
        number: Some(number),
        name,
        values: Values::One([value]),
    }
}

/// The fault of a text.
fn of_text(kind: TextKind) -> NamedFault {
    match kind {
        TextKind::UnknownKeyword => plain(1, "UnknownKeyword"),
        TextKind::Repeated => plain(2, "Repeated"),
        TextKind::Missing(keyword) => NamedFault {
            number: Some(3),
            name: "Missing",
            values: Values::Word((keyword.word(),)),
        },
        TextKind::Unsupported => plain(4, "Unsupported"),
        TextKind::BadNumber => plain(5, "BadNumber"),
        TextKind::OutOfLimit => plain(6, "OutOfLimit"),
        TextKind::BadNode => plain(7, "BadNode"),
        TextKind::NotSymmetric(a, b) => NamedFault {
            number: Some(8),
            name: "NotSymmetric",
            values: Values::Two([a as u64, b as u64]),
        },
        TextKind::Truncated => plain(9, "Truncated"),
        TextKind::TrailingData => plain(10, "TrailingData"),
        TextKind::BadDepot => plain(11, "BadDepot"),
        TextKind::DemandOverCapacity(node) => with(12, "DemandOverCapacity", node),
        TextKind::TooLong => plain(13, "TooLong"),
        TextKind::Read => plain(14, "Read"),
        TextKind::NoMemory => plain(15, "NoMemory"),
    }
}

/// The fault of a parameter file.
fn of_parameters(kind: ParamKind) -> NamedFault {
    match kind {
        ParamKind::UnknownKey => plain(1, "UnknownKey"),
        ParamKind::RepeatedKey => plain(2, "RepeatedKey"),
        ParamKind::BadValue => plain(3, "BadValue"),
        ParamKind::MissingProblem => plain(4, "MissingProblem"),
        ParamKind::DollarInName => plain(5, "DollarInName"),
        ParamKind::TooLong => plain(6, "TooLong"),
        ParamKind::Read => plain(7, "Read"),
        ParamKind::NoMemory => plain(8, "NoMemory"),
    }
}

/// The fault of an initial tour.
fn of_initial(fault: TourFault) -> Option<NamedFault> {
    match fault {
        TourFault::WrongCount => Some(plain(1, "WrongCount")),
        TourFault::OutOfRange(place) => Some(with(2, "OutOfRange", place)),
        TourFault::RepeatedCity(place) => Some(with(3, "RepeatedCity", place)),
        TourFault::NoMemory => None,
    }
}

/// The fault of the routes of an initial solution. It has the name that `checksol` prints with `--json`.
fn of_routes(fault: RouteFault) -> NamedFault {
    let (name, values) = match fault {
        RouteFault::BadCustomer(route, customer) => {
            ("BadCustomer", Values::Two([route, customer as u64]))
        }
        RouteFault::ServedTwice(customer) => ("ServedTwice", Values::One([customer])),
        RouteFault::OverCapacity(route, load) => ("OverCapacity", Values::Two([route, load])),
        RouteFault::NotServed(customer) => ("NotServed", Values::One([customer])),
        RouteFault::WrongCost(read, counted) => ("WrongCost", Values::Costs([read, counted])),
    };
    NamedFault {
        number: None,
        name,
        values,
    }
}
