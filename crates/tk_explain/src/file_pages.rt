//! The explanation of a file, or of a line of it.
ghost use Rattle.std.specs.Prelude.{◌≡◌, ◌<◌, IfOk};
ghost use Rattle.std.specs.String.{string_len};
ghost use Rattle.tk_explain.specs.Answers.{fault_in, fault_of};

use crate::one_line::add_for_line;
use crate::page::Page;
use crate::read_result::{ReadResult, answer_to};
use crate::whole_file::{File, add_answer};
use std::alloc::{AllocError, Global};
use tk_diagnosis::FileFault;
use tk_kinds::Kind;

/// The explanation of a file, which was read as a file of this kind.
#[derive(Drop)]
pub struct FilePage {
    pub kind: Kind,
    /// Its first fault, if it has one.
    pub fault: Option<FileFault>,
    pub text: String,
}

/// The explanation of a file.
///
/// # Errors
/// `AllocError` if memory runs out, as for all functions here.
pub fn file_page(alloc: Global, name: &str, text: &[u8]) -> Result<FilePage, AllocError>
    ensures fault { IfOk result (λ page. page.fault ≡ fault_of page.kind text.now) }
    ensures words { IfOk result (λ page. 0 < string_len page.text) }
{
    page_of(&File::new(alloc, name, text), None)
}

/// The explanation of a line: the first fault of the file, if it is on this line; otherwise how the line is read.
pub fn line_page(
    alloc: Global,
    name: &str,
    text: &[u8],
    number: u64,
) -> Result<FilePage, AllocError>
    ensures fault { IfOk result (λ page. page.fault ≡ fault_of page.kind text.now) }
    ensures words { IfOk result (λ page. 0 < string_len page.text) }
{
    page_of(&File::new(alloc, name, text), Some(number))
}

/// The explanation of a file, or of one of its lines.
fn page_of(file: &File<'_>, line: Option<u64>) -> Result<FilePage, AllocError>
    ensures fault { IfOk result (λ page. page.fault ≡ fault_of page.kind file.now.text.now) }
    ensures words { IfOk result (λ page. 0 < string_len page.text) }
{
    let answer = answer_to(file.alloc, file.kind, file.text)?;
    let page = page_of_answer(file, &answer, line);
    drop(answer);
    page
}

/// Like `page_of`, given the answer of the reader of the file.
fn page_of_answer(
    file: &File<'_>,
    answer: &ReadResult,
    line: Option<u64>,
) -> Result<FilePage, AllocError>
    ensures kind { IfOk result (λ page. page.kind ≡ file.now.kind) }
    ensures fault { IfOk result (λ page. page.fault ≡ fault_in answer.now) }
    ensures words { IfOk result (λ page. 0 < string_len page.text) }
{
    let text = text_of(file, answer, line)?;
    Ok(FilePage {
        kind: file.kind,
        fault: answer.fault(),
        text,
    })
}

/// The text of the explanation of a file, or of one of its lines.
fn text_of(file: &File<'_>, answer: &ReadResult, line: Option<u64>) -> Result<String, AllocError>
    ensures { IfOk result (λ text. 0 < string_len text) }
{
    let mut page = Page::new(file.alloc);
    match line {
        Some(number) => add_for_line(&mut page, file, answer, number)?,
        None => add_answer(&mut page, file, answer)?,
    }
    page.finished()
}
