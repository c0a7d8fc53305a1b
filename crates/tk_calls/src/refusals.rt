//! Calls that are made again if memory runs out.
use std::alloc::AllocError;
use std::{fmt, io};
use tk_engines::{ParamFault, ParamKind};
use tk_text::{TextFault, TextKind};
use tk_tour::TourFault;

/// Why a call has no value. It is made again if memory ran out.
#[derive(Clone, Copy)]
pub enum Stopped {
    /// Memory ran out.
    NoMemory,
    /// The call has another fault, or a line could not be printed.
    Otherwise,
}

impl Stopped {
    /// The reason why a call has no value, given whether memory ran out.
    fn of_call(is_no_memory: bool) -> Stopped {
        if is_no_memory {
            Stopped::NoMemory
        } else {
            Stopped::Otherwise
        }
    }
}

impl fmt::Display for Stopped {
    fn fmt<W: fmt::Write>(&self, f: &mut fmt::Formatter<W>) -> fmt::Result {
        f.write_str(match self {
            Stopped::NoMemory => "memory ran out twice in a call",
            Stopped::Otherwise => "a call failed",
        })
    }
}

impl From<AllocError> for Stopped {
    fn from(_: AllocError) -> Stopped {
        Stopped::NoMemory
    }
}

impl From<TextFault> for Stopped {
    fn from(fault: TextFault) -> Stopped {
        Stopped::of_call(fault.kind == TextKind::NoMemory)
    }
}

impl From<ParamFault> for Stopped {
    fn from(fault: ParamFault) -> Stopped {
        Stopped::of_call(fault.kind == ParamKind::NoMemory)
    }
}

impl From<TourFault> for Stopped {
    fn from(fault: TourFault) -> Stopped {
        Stopped::of_call(fault == TourFault::NoMemory)
    }
}

impl From<io::Error> for Stopped {
    fn from(error: io::Error) -> Stopped {
        Stopped::of_call(error.kind() == io::ErrorKind::OutOfMemory)
    }
}

/// Makes a call. If memory runs out, prints this under its name, and makes the call again. The value is `None` if the
/// call fails again, or for another reason.
#[macro_export]
macro_rules! again {
    ($host:expr, $name:literal, $call:expr) => {
        match $call {
            Ok(value) => Some(value),
            Err(fault) => {
                $host.tell_refused($name, fault);
                $host.value_of($call)
            }
        }
    };
}

/// Makes a call as `again` does, and prints its value under its name.
#[macro_export]
macro_rules! call {
    ($host:expr, $name:literal, $call:expr) => {
        $host.tell_answer($name, $crate::again!($host, $name, $call))
    };
}
