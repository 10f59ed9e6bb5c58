// The place of the value that is wrong, for who uploads a text.
ghost use Rattle.call_definitions.specs.Call.{locate_text};
ghost use Rattle.call_definitions.specs.Results.{Locates};

#[unsafe(no_mangle)]
pub extern "C" fn smocurant_locate(text: &[u8], place: &mut u64) -> u32
    ensures { Locates (locate_text text.now) result place.new }
{
    smocurant::places::smocurant_locate(text, place)
}
