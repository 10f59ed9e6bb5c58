// What the cycle hands on: a tag and a number, so that it comes back in two registers. A `Result<usize, SyntaxError>` comes back through memory,
// which costs a text of many values a third more time.
ghost use Rattle.std.specs.Prelude.{◌≡◌};
ghost use Rattle.json_ends.specs.Inner.Told.{told};

use json_text::SyntaxError;

#[derive(Clone, Copy)]
pub(crate) enum Reading {
    To(usize),
    Bad,
    Deep,
}

// The result that a reading stands for.
pub(crate) fn result_of(reading: Reading) -> Result<usize, SyntaxError>
    ensures { result ≡ told reading }
{
    match reading {
        Reading::To(end) => Ok(end),
        Reading::Bad => Err(SyntaxError::Malformed),
        Reading::Deep => Err(SyntaxError::TooDeep),
    }
}

// The reading that stands for a result.
pub(crate) fn reading_of(found: Result<usize, SyntaxError>) -> Reading
    ensures { told result ≡ found }
{
    match found {
        Ok(end) => Reading::To(end),
        Err(SyntaxError::Malformed) => Reading::Bad,
        Err(SyntaxError::TooDeep) => Reading::Deep,
    }
}
