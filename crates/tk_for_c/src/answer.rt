//! The result of a call, apart from what it writes.
ghost use Rattle.std.specs.Prelude.{◌≡◌, ◌≤◌};
ghost use Rattle.tk_for_c.specs.Outcomes.{IsFailure, clash_answer, clashing, fault_answer, found, of_length};
ghost use Rattle.tk_for_c.specs.Outcomes.{param_answer, param_number, place_of_route, refused, route_clash_answer};
ghost use Rattle.tk_for_c.specs.Outcomes.{text_answer, text_number};
ghost use Rattle.tk_for_c.specs.Outcomes.{with_status, with_status_twice};
ghost use Rattle.tk_for_c.specs.Texts.{IsSomeText, WasHandedOut};

use crate::hand_out::hand_out;
use std::alloc::Global;
use std::fmt;
use tk_engines::{Fault, ParamFault, ParamKind, RouteFault};
use tk_text::{TextFault, TextKind};
use tk_tour::TourFault;

/// Status: a text, a number or an array was rejected, or the problem does not fit the task.
pub(crate) const REFUSED: u32 = 2;
/// Status: memory ran out. All other fields are 0, except perhaps `needed`, the size of a message.
pub(crate) const NO_MEMORY: u32 = 3;
/// Status: the size of an array is not `needed`; nothing was written.
pub(crate) const NO_ROOM: u32 = 4;

/// The result of a call, apart from the text or array that it writes.
#[derive(Drop)]
#[repr(C)]
pub struct Answer {
    /// 0: done; 1: the tour or the solution has a fault; 2: a text, a number or an array was rejected, or the problem
    /// does not fit the task; 3: out of memory; 4: the size of an array is not `needed`.
    pub status: u32,
    /// The number of the rejected text, from 1 in the order of the parameters; 0 for none.
    pub text: u32,
    /// The line of the fault, from 1; 0 for none.
    pub line: u64,
    /// The number of the fault; 0 for none.
    pub kind: u32,
    /// The position of the fault in a tour, from 1, or the number of the route or of the customer; 0 for none.
    pub place: u32,
    /// The length of a tour, from `tourkit_check_cities` and the other checks of arrays; otherwise 0.
    pub length: u64,
    /// The number of bytes or numbers to write.
    pub needed: usize,
    /// Like `needed`, for the second buffer of `tourkit_solve` and `tourkit_plot`.
    pub needed_file: usize,
}

/// The number of a kind of text fault.
pub(crate) fn number(kind: &TextKind) -> u32
    ensures { result ≡ text_number kind.now }
{
    match kind {
        TextKind::UnknownKeyword => 1,
        TextKind::Repeated => 2,
        TextKind::Missing(_) => 3,
        TextKind::Unsupported => 4,
        TextKind::BadNumber => 5,
        TextKind::OutOfLimit => 6,
        TextKind::BadNode => 7,
        TextKind::NotSymmetric(_, _) => 8,
        TextKind::Truncated => 9,
        TextKind::TrailingData => 10,
        TextKind::BadDepot => 11,
        TextKind::DemandOverCapacity(_) => 12,
        TextKind::TooLong => 13,
        TextKind::Read => 14,
        TextKind::NoMemory => 15,
    }
}

/// The number of a kind of parameter fault.
pub(crate) fn number_of_params(kind: &ParamKind) -> u32
    ensures { result ≡ param_number kind.now }
{
    match kind {
        ParamKind::UnknownKey => 1,
        ParamKind::RepeatedKey => 2,
        ParamKind::BadValue => 3,
        ParamKind::MissingProblem => 4,
        ParamKind::DollarInName => 5,
        ParamKind::TooLong => 6,
        ParamKind::Read => 7,
        ParamKind::NoMemory => 8,
    }
}

impl Answer {
    /// A result with this status and `needed`, and 0 in all other fields.
    pub(crate) fn ended(status: u32, needed: usize) -> Answer
        ensures { result ≡ with_status status needed }
    {
        Answer {
            status,
            text: 0,
            line: 0,
            kind: 0,
            place: 0,
            length: 0,
            needed,
            needed_file: 0,
        }
    }

    /// A result with this status and the sizes of two texts, and 0 in all other fields.
    pub(crate) fn ended_twice(status: u32, needed: usize, needed_file: usize) -> Answer
        ensures { result ≡ with_status_twice status needed needed_file }
    {
        Answer {
            needed_file,
            ..Answer::ended(status, needed)
        }
    }

    /// The result for a tour of this length.
    pub(crate) fn of_length(length: u64) -> Answer
        ensures { result ≡ of_length length }
    {
        Answer {
            length,
            ..Answer::ended(0, 0)
        }
    }

    /// The result for a list with this fault at this position, which is 0 for a wrong count.
    pub(crate) fn found(kind: u32, place: u32) -> Answer
        ensures { result ≡ found kind place }
    {
        Answer {
            kind,
            place,
            ..Answer::ended(1, 0)
        }
    }

    /// The result for a rejected text, with a message of `needed` bytes. `text` is 0 if the problem does not fit the
    /// task.
    pub(crate) fn refused(text: u32, line: u64, kind: u32, needed: usize) -> Answer
        ensures { result ≡ refused text line kind needed }
    {
        Answer {
            text,
            line,
            kind,
            ..Answer::ended(REFUSED, needed)
        }
    }

    /// The result for the fault of a text, with a message of `needed` bytes.
    pub(crate) fn of_text(text: u32, fault: &TextFault, needed: usize) -> Answer
        ensures is { result ≡ text_answer text fault.now needed }
        ensures failure { IsFailure needed result }
    {
        match fault.kind {
            TextKind::NoMemory | TextKind::Read => Answer::ended(NO_MEMORY, needed),
            _ => Answer::refused(text, fault.line, number(&fault.kind), needed),
        }
    }

    /// The result for the fault of the parameters, with a message of `needed` bytes.
    fn of_params(fault: &ParamFault, needed: usize) -> Answer
        ensures is { result ≡ param_answer fault.now needed }
        ensures failure { IsFailure needed result }
    {
        match fault.kind {
            ParamKind::NoMemory | ParamKind::Read => Answer::ended(NO_MEMORY, needed),
            _ => Answer::refused(1, fault.line, number_of_params(&fault.kind), needed),
        }
    }

    /// The result for the fault that stopped an engine, with a message of `needed` bytes. `problem` is the number of
    /// the problem text; the other text has the next number.
    fn of(problem: u32, fault: &Fault, needed: usize) -> Answer
        requires { problem ≤ 2 }
        ensures is { result ≡ fault_answer problem fault.now needed }
        ensures failure { IsFailure needed result }
    {
        match fault {
            Fault::Problem(fault) => Answer::of_text(problem, fault, needed),
            Fault::Tour(fault) | Fault::Solution(fault) => Answer::of_text(
                problem + 1,
                fault,
                needed,
            ),
            Fault::Initial(fault) => Answer::of_tour(problem + 1, fault, needed),
            Fault::InitialRoutes(fault) => Answer::of_routes(problem + 1, fault, needed),
            Fault::WrongType => Answer::refused(0, 0, 16, needed),
            Fault::NotForType(_) => Answer::refused(0, 0, 17, needed),
            Fault::TooLarge => Answer::refused(0, 0, 18, needed),
            Fault::NoPlaces => Answer::refused(0, 0, 19, needed),
            // pages of the library have no names
            Fault::WrongNames(_) => Answer::refused(0, 0, 0, needed),
            Fault::Write(_) | Fault::NoMemory => Answer::ended(NO_MEMORY, needed),
        }
    }

    /// The result for the fault of an initial tour, which is the text of this number.
    fn of_tour(text: u32, fault: &TourFault, needed: usize) -> Answer
        ensures is { result ≡ clash_answer text fault.now needed }
        ensures failure { IsFailure needed result }
    {
        match fault {
            TourFault::WrongCount => Answer::clashing(text, 20, 0, needed),
            TourFault::OutOfRange(place) => Answer::clashing(text, 21, *place, needed),
            TourFault::RepeatedCity(place) => Answer::clashing(text, 22, *place, needed),
            TourFault::NoMemory => Answer::ended(NO_MEMORY, needed),
        }
    }

    /// The result for the fault of the routes of an initial solution, which is the text of this number. The position of
    /// the fault is its route or its customer.
    fn of_routes(text: u32, fault: &RouteFault, needed: usize) -> Answer
        ensures { result ≡ route_clash_answer text fault.now needed }
    {
        match fault {
            RouteFault::BadCustomer(route, _) => {
                Answer::clashing(text, 23, place_of_route(*route), needed)
            }
            RouteFault::ServedTwice(customer) => Answer::clashing(text, 24, *customer, needed),
            RouteFault::OverCapacity(route, _) => {
                Answer::clashing(text, 25, place_of_route(*route), needed)
            }
            RouteFault::NotServed(customer) => Answer::clashing(text, 26, *customer, needed),
            RouteFault::WrongCost(_, _) => Answer::clashing(text, 27, 0, needed),
        }
    }

    /// The result for an initial tour or an initial solution with this fault at this position, which is 0 for none.
    /// `text` is the number of its text.
    fn clashing(text: u32, kind: u32, place: u32, needed: usize) -> Answer
        ensures { result ≡ clashing text kind place needed }
    {
        Answer {
            place,
            ..Answer::refused(text, 0, kind, needed)
        }
    }
}

/// The number of a route as the position of a fault. A solution has far fewer than 2^32 routes.
fn place_of_route(route: u64) -> u32
    ensures { result ≡ place_of_route route }
{
    route.min(u32::MAX as u64) as u32
}

/// Writes as much of the message of a fault to a buffer as fits, and returns the number of bytes of the whole message,
/// which is empty if memory runs out.
fn hand_out_message<F: fmt::Display>(alloc: Global, fault: &F, out: &mut [u8]) -> usize
    ensures { WasHandedOut out.old out.new result }
{
    match format!(in alloc; "{fault}") {
        Ok(message) => hand_out(message.as_bytes(), out),
        Err(_) => hand_out(b"", out),
    }
}

/// The result for the fault that stopped an engine. `out` gets as much of the message as fits; the message is empty if
/// memory runs out. `problem` is the number of the problem text; the other text has the next number.
pub(crate) fn stopped(alloc: Global, problem: u32, fault: &Fault, out: &mut [u8]) -> Answer
    requires { problem ≤ 2 }
    ensures is { result ≡ fault_answer problem fault.now result.needed }
    ensures failure { IsFailure result.needed result }
    ensures message { IsSomeText out.old out.new result }
{
    Answer::of(problem, fault, hand_out_message(alloc, fault, out))
}

/// The result for the fault of the parameters. `out` gets as much of the message as fits; the message is empty if
/// memory runs out.
pub(crate) fn params_stopped(alloc: Global, fault: &ParamFault, out: &mut [u8]) -> Answer
    ensures is { result ≡ param_answer fault.now result.needed }
    ensures failure { IsFailure result.needed result }
    ensures message { IsSomeText out.old out.new result }
{
    Answer::of_params(fault, hand_out_message(alloc, fault, out))
}
