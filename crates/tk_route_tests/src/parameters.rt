//! Parameter files that are read with enough memory: each key, the defaults, and a fault of each kind.
ghost use Rattle.std.specs.Prelude.{None, false};

use crate::given::expect;
use crate::settings::expect_numbers;
use std::alloc::Global;
use std::process::Abort;
use tk_engines::{
    Construction, Key, ParamFault, ParamKind, Params, each_word_spells_its_key, read_params,
};
use tk_text::{Failed, FromRead, Source};

/// Returns its bytes one by one. After the last one, it fails if `fails` is true.
#[derive(Drop)]
struct Drip<'a> {
    bytes: &'a [u8],
    fails: bool,
    failed: bool,
}

impl<'a> Source for Drip<'a> {
    ghost left = { λ s. None };

    ghost broken = { λ s. s.failed };

    fn read(&mut self, buf: &mut [u8]) -> Result<usize, Failed> {
        match self.bytes {
            [] => {
                if self.fails {
                    self.failed = true;
                    return Err(Failed);
                }
                Ok(0)
            }
            [byte, rest @ ..] => {
                if buf.is_empty() {
                    return Ok(0);
                }
                buf[0] = *byte;
                self.bytes = rest;
                Ok(1)
            }
        }
    }

    fn failed(&self) -> bool {
        self.failed
    }
}

/// Reads a text byte by byte, from a source that fails after its last byte if `fails` is true.
fn read_dripping(alloc: Global, text: &[u8], fails: bool) -> Result<Params, ParamFault> {
    let mut source = Drip {
        bytes: text,
        fails,
        failed: false,
    };
    read_params(alloc, &mut source)
}

/// Reads a text at once.
fn read(alloc: Global, text: &[u8]) -> Result<Params, ParamFault> {
    let mut source = FromRead::new(text);
    read_params(alloc, &mut source)
}

/// Checks the names of the files.
fn expect_files<A: Abort>(rt: &A, params: &Params, problem: &str, others: [&str; 3]) {
    let [tour, solution, initial] = others;
    expect(rt, params.problem_file() == problem);
    expect(rt, params.tour_file() == Some(tour));
    expect(rt, params.solution_file() == Some(solution));
    expect(rt, params.initial_tour_file() == Some(initial));
}

/// Checks what each key of a file sets.
fn expect_each_key(rt: &impl Abort, params: &Params) {
    expect_files(rt, params, "= p", ["a b", "s", "t"]);
    let search = params.search();
    expect_numbers(rt, &search, [10_000, 1_000_000, 4_294_967_295, 100, 1]);
    expect(rt, search.construction == Construction::Savings);
    expect(rt, search.final_sweep);
    expect(rt, params.ignored() == [Key::Optimum].as_slice());
}

#[test]
fn reads_each_key(rt: HostRuntime) {
    let text =
        b"OPTIMUM = 7 $\n\n TOUR_FILE\t=\t a b \r\nPROBLEM_FILE = = p\nSOLUTION_FILE s\nInitial_Tour_File=t\n\
        RUNS = 10000\nMAX_TRIALS = 1000000\nSEED = +4294967295\nMAX_CANDIDATES = 100\nCONSTRUCTION = Savings\n\
        FINAL_SWEEP = yes\nOR_SEGMENT = 1\nCOMMENT = $\nCOMMENT\nEOF x\nFOO";
    expect_each_key(&rt, &read(rt.alloc(), text).expect(&rt, "no fault"));
}

#[test]
fn shows_a_key_as_its_word(rt: HostRuntime) {
    each_word_spells_its_key();
    expect(&rt, Key::PatchingA.word() == "PATCHING_A");
    let shown = format!(in rt.alloc(); "ignored {}", Key::MoveType).expect(&rt, "memory");
    expect(&rt, shown.as_str() == "ignored MOVE_TYPE");
}

/// Checks that a text, read at once and byte by byte, has this fault.
fn refuse<A: Abort>(rt: &A, alloc: Global, text: &[u8], line: u64, kind: ParamKind) {
    let fault = Some(ParamFault { line, kind });
    expect(rt, read(alloc, text).err() == fault);
    expect(rt, read_dripping(alloc, text, false).err() == fault);
}

/// Texts that are not settings, and the line and the kind of their faults.
static REFUSED: [(&[u8], u64, ParamKind); 8] = [
    (b"# c\nMOVE_TYPE = 5\nFOO = 1\n", 3, ParamKind::UnknownKey),
    (b"OPTIMUM\noptimum\n", 2, ParamKind::RepeatedKey),
    (b"SEED = 1\nSEED = 1\n", 2, ParamKind::RepeatedKey),
    (b"RUNS = 0\n", 1, ParamKind::BadValue),
    (b"PROBLEM_FILE = \xFF", 1, ParamKind::BadValue),
    (b"", 1, ParamKind::MissingProblem),
    (b"RUNS = 1\nEOF\n", 2, ParamKind::MissingProblem),
    (b"PROBLEM_FILE = a$b", 1, ParamKind::DollarInName),
];

#[test]
fn refuses_what_is_no_setting(rt: HostRuntime) {
    for (text, line, kind) in &REFUSED {
        refuse(&rt, rt.alloc(), text, *line, *kind);
    }
}

/// A byte, how often a text repeats it, and the line on which the text is too long.
static TOO_LONG: [(&[u8], usize, u64); 3] = [
    (b"A", 65, 1),
    (b" ", 4097, 1),
    (b"\n", 1_048_577, 1_048_577),
];

/// A key of 65 bytes, a line of 4,097 and a text of 1,048,577 are too long.
#[test]
fn refuses_what_is_too_long(rt: HostRuntime) {
    for (byte, count, line) in &TOO_LONG {
        let text = byte.repeat(rt.alloc(), *count).expect(&rt, "memory");
        refuse(&rt, rt.alloc(), &text, *line, ParamKind::TooLong);
    }
}

/// Returns line feeds without end.
#[derive(Drop)]
struct LineFeeds;

impl Source for LineFeeds {
    ghost left = { λ s. None };

    ghost broken = { λ s. false };

    fn read(&mut self, buf: &mut [u8]) -> Result<usize, Failed> {
        buf.fill(b'\n');
        Ok(buf.len())
    }

    fn failed(&self) -> bool {
        false
    }
}

/// An endless source is read only up to the limit of a text.
#[test]
fn stops_at_the_limit(rt: HostRuntime) {
    let fault = read_params(rt.alloc(), &mut LineFeeds).err();
    let too_long = Some(ParamFault {
        line: 1_048_577,
        kind: ParamKind::TooLong,
    });
    expect(&rt, fault == too_long);
}

/// The failure of a source is reported if the text does not end before it.
#[test]
fn tells_a_fault_of_the_source(rt: HostRuntime) {
    let fault = read_dripping(rt.alloc(), b"PROBLEM_FILE = p\nRUNS", true).err();
    let read = Some(ParamFault {
        line: 2,
        kind: ParamKind::Read,
    });
    expect(&rt, fault == read);
    expect(
        &rt,
        read_dripping(rt.alloc(), b"PROBLEM_FILE = p\nEOF\n", true).is_ok(),
    );
}
