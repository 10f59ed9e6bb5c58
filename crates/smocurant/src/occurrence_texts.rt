// The texts of one occurrence, by their place in the event's text: both numbers are 0 where no bytes come out.
ghost use Rattle.call_definitions.specs.Call.{title_of, description_of};
ghost use Rattle.call_definitions.specs.Results.{Shows};

// Two functions and no parameter for which text: C calls both by name, through `smocurant_c`.
pub fn smocurant_title(text: &[u8], date: i64, start: &mut u64, length: &mut u64) -> u32
    ensures { Shows (title_of text.now date) result start.new length.new }
{
    texts::calls::title_place(text, date, start, length)
}

pub fn smocurant_description(text: &[u8], date: i64, start: &mut u64, length: &mut u64) -> u32
    ensures { Shows (description_of text.now date) result start.new length.new }
{
    texts::calls::description_place(text, date, start, length)
}
