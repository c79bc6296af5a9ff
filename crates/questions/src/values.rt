// Questions whose answer is a value: integer, boolean, NULL.
ghost use Rattle.std.specs.Prelude.{◌≡◌};
ghost use Rattle.meaning.specs.Questions.{i64_question, bool_question, null_question, is_null};

use admitting::kinds::is_integer;
use admitting::tests::test;
use meaning::{Literal, LiteralExpected, LiteralKind, Refusal};
use numbers::int64::read_i64;

// The value of an integer literal.
// Rules out: 7 for 5; a decimal's text read (must-fail: one_for_another, another_kind_asked).
pub fn as_i64(literal: Literal, source: &[u8]) -> Result<i64, Refusal>
    ensures { result ≡ i64_question literal source.now }
{
    let right = is_integer(literal.kind);
    let part = test(right, LiteralExpected::Integer, literal, source)?;
    match read_i64(&source[part.start..part.end]) {
        Some(value) => Ok(value),
        None => Err(Refusal::InvalidInteger(literal.span)),
    }
}

// The value of a boolean literal, which reads no source.
// Rules out: false for true; a date taken for false (must-fail: one_for_another, another_kind_asked).
pub fn as_bool(literal: Literal) -> Result<bool, Refusal>
    ensures { result ≡ bool_question literal.kind }
{
    match literal.kind {
        LiteralKind::Boolean(value) => Ok(value),
        kind => Err(Refusal::WrongKind(LiteralExpected::Boolean, kind)),
    }
}

// That a literal is NULL, which reads no source.
// Rules out: another family expected; a string taken for NULL (must-fail: one_for_another, another_kind_asked).
pub fn as_null(literal: Literal) -> Result<(), Refusal>
    ensures { result ≡ null_question literal.kind }
{
    match literal.kind {
        LiteralKind::Null => Ok(()),
        kind => Err(Refusal::WrongKind(LiteralExpected::Null, kind)),
    }
}

// Whether a literal is NULL.
// Rules out: true taken for NULL; money taken for NULL (must-fail: one_for_another, another_kind_asked).
pub fn is_null(literal: Literal) -> bool
    ensures { result ≡ is_null literal.kind }
{
    matches!(literal.kind, LiteralKind::Null)
}
