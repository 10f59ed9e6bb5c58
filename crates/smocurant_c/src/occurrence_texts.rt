// The texts of one occurrence, by their place in the event's text.
ghost use Rattle.call_definitions.specs.Call.{title_of, description_of};
ghost use Rattle.call_definitions.specs.Results.{Shows};

#[unsafe(no_mangle)]
pub extern "C" fn smocurant_title(text: &[u8], date: i64, start: &mut u64, length: &mut u64) -> u32
    ensures { Shows (title_of text.now date) result start.new length.new }
{
    smocurant::occurrence_texts::smocurant_title(text, date, start, length)
}

#[unsafe(no_mangle)]
pub extern "C" fn smocurant_description(
    text: &[u8],
    date: i64,
    start: &mut u64,
    length: &mut u64,
) -> u32
    ensures { Shows (description_of text.now date) result start.new length.new }
{
    smocurant::occurrence_texts::smocurant_description(text, date, start, length)
}
