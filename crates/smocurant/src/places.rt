// The place of the value that is wrong, for who uploads a text.
ghost use Rattle.call_definitions.specs.Call.{locate_text};
ghost use Rattle.call_definitions.specs.Results.{Locates};

// The number is that of every other call on the text. The place is that of the value for 20 to 26, and 0 for every other number.
pub fn smocurant_locate(text: &[u8], place: &mut u64) -> u32
    ensures { Locates (locate_text text.now) result place.new }
{
    opening::located::locate(text, place)
}
