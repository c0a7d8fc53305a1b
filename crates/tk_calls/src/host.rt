//! What calls use of the system: standard output and memory.
ghost use Rattle.std.specs.Prelude.{◌≡◌, IfSome, Ok};

use crate::refusals::Stopped;
use std::alloc::Global;
use std::cell::Cell;
use std::fmt::{Debug, Display};
use std::io;

/// Prints lines and allocates memory for calls. If a line cannot be printed or a call fails, the first such failure is
/// kept until the end of the program; calls and lines that do not need the missing value follow.
#[derive(Drop)]
pub struct Host<'a> {
    pub rt: &'a HostRuntime,
    pub alloc: Global,
    stopped: Cell<Option<Stopped>>,
}

impl<'a> Host<'a> {
    /// A host on which nothing has failed.
    pub fn new(rt: &'a HostRuntime) -> Host<'a> {
        Host {
            rt,
            alloc: rt.alloc(),
            stopped: Cell::new(None),
        }
    }

    /// Why the first failure happened, if there was one.
    pub fn stopped(&self) -> Option<Stopped> {
        self.stopped.get()
    }

    /// Notes a failure, unless there was one before.
    pub fn stop(&self, reason: Stopped) {
        if self.stopped.get().is_none() {
            self.stopped.set(Some(reason));
        }
    }

    /// Notes that a value is not as expected.
    pub fn fail(&self) {
        self.stop(Stopped::Otherwise);
    }

    /// The value of a call. If it has none, notes why.
    pub fn value_of<V, E: Into<Stopped>>(&self, answer: Result<V, E>) -> Option<V>
        ensures { IfSome result (λ value. answer ≡ Ok value) }
    {
        match answer {
            Ok(value) => Some(value),
            Err(fault) => {
                self.stop(fault.into());
                None
            }
        }
    }

    /// Notes whether something could be printed.
    fn printed(&self, answer: io::Result<()>) {
        if answer.is_err() {
            self.fail();
        }
    }

    /// Prints a part of a line.
    pub fn print<D: Display + Drop>(&self, part: D) {
        self.printed(self.rt.print(part));
    }

    /// Prints a line, or the end of a line.
    pub fn println<D: Display + Drop>(&self, line: D) {
        self.printed(self.rt.println(line));
    }

    /// Prints a value.
    pub fn tell<V: Debug>(&self, name: &str, value: &V) {
        println!(self; "{name}: {value:?}");
    }

    /// Prints the value of a call, if it has one.
    pub fn tell_answer<V: Debug + Drop>(&self, name: &str, answer: Option<V>) {
        if let Some(value) = &answer {
            self.tell(name, value);
        }
    }

    /// Prints the state of what a call changes, if memory ran out, before the call is made again.
    pub fn tell_kept<V: Debug>(&self, name: &str, kept: &V) {
        println!(self; "{name}: out of memory, {kept:?}");
    }

    /// Prints that memory ran out in the call with this name, if this is its fault.
    pub fn tell_refused<E: Into<Stopped>>(&self, name: &str, fault: E) {
        if let Stopped::NoMemory = fault.into() {
            println!(self; "{name}: out of memory");
        }
    }

    /// Prints a number of things.
    pub fn tell_number<N: Display>(&self, name: &str, number: &N, things: &str) {
        println!(self; "{name}: {number} {things}");
    }

    /// Prints the cities of a tour in their order, and a number of things.
    pub fn tell_tour(&self, name: &str, cities: &[u32], number: u64, things: &str) {
        println!(self; "{name}: {cities:?}, {number} {things}");
    }

    /// Prints a mark. Between `built` and `done`, no memory is allocated.
    pub fn mark(&self, name: &str) {
        self.println(name);
    }
}
