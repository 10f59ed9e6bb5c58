// The calls for the texts of one occurrence. "the words need only text and date and answer 0 to 9 or 14"; a text is the caller's own bytes
// between the quotes, and has none after a refusal.
ghost use Rattle.call_definitions.specs.Call.{text_of, title_of, description_of};
ghost use Rattle.call_definitions.specs.Results.{Shows, Tells};
ghost use Rattle.texts.specs.Inner.Shown.{chosen};

use crate::answered::told;

// The place of the title or of the description in the text.
fn place_of(text: &[u8], title: bool, date: i64, start: &mut u64, length: &mut u64) -> u32
    ensures { Shows (text_of (chosen title) text.now date) result start.new length.new }
{
    let found = told(text, title, date);
    *start = found.start as u64;
    *length = found.length as u64;
    found.answer
}

// The title or the description as a part of the text; the number through `answer`.
fn text_of<'a>(text: &'a [u8], title: bool, date: i64, answer: &mut u32) -> &'a [u8]
    ensures { Tells (text_of (chosen title) text.now date) text.now answer.new result.now }
{
    let found = told(text, title, date);
    *answer = found.answer;
    let start = found.start;
    let end = start + found.length;
    &text[start..end]
}

// Where the title stands in the text: its first byte and how many it has.
pub fn title_place(text: &[u8], date: i64, start: &mut u64, length: &mut u64) -> u32
    ensures { Shows (title_of text.now date) result start.new length.new }
{
    place_of(text, true, date, start, length)
}

// Where the description stands in the text.
pub fn description_place(text: &[u8], date: i64, start: &mut u64, length: &mut u64) -> u32
    ensures { Shows (description_of text.now date) result start.new length.new }
{
    place_of(text, false, date, start, length)
}

// The title as a part of the text.
pub fn title<'a>(text: &'a [u8], date: i64, answer: &mut u32) -> &'a [u8]
    ensures { Tells (title_of text.now date) text.now answer.new result.now }
{
    text_of(text, true, date, answer)
}

// The description as a part of the text.
pub fn description<'a>(text: &'a [u8], date: i64, answer: &mut u32) -> &'a [u8]
    ensures { Tells (description_of text.now date) text.now answer.new result.now }
{
    text_of(text, false, date, answer)
}
