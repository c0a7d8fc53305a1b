//! Integers within limits.
ghost use Rattle.std.specs.Prelude.{◌≡◌, ◌≤◌, ℕ, pos, None, Some, IfOk, IfErr, OnOk};
ghost use Rattle.tk_words.specs.Lex as Lex;
ghost use Rattle.tk_lines.specs.Pieces.{first_at, Fault};
ghost use Rattle.tk_words.specs.Entry.{number_tests};

use tk_words::{Lexeme, TextKind, limited};

/// An integer from `low` to `high`. `BadNumber` if the token is not an integer, `OutOfLimit` if it is another number.
pub fn number_of(token: &Lexeme, low: u32, high: u32) -> Result<u32, TextKind>
    ensures value { IfOk result (λ value. Lex.integer token.now ≡ Some (pos value)) }
    ensures limits { IfOk result (λ value. (low ≤ value) × (value ≤ high)) }
    ensures ok { (line : ℕ) → OnOk result (first_at line (number_tests low high token.now) ≡ None) }
    ensures err { (line : ℕ)
        → IfErr result (λ k. first_at line (number_tests low high token.now) ≡ Some (Fault line k)) }
{
    let Some(number) = token.integer() else {
        return Err(TextKind::BadNumber);
    };
    match limited(number, low, high) {
        Some(number) => Ok(number),
        None => Err(TextKind::OutOfLimit),
    }
}
