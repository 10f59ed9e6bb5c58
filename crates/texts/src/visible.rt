// Who may see a text.
ghost use Rattle.std.specs.Prelude.{if◌then◌else◌, ◌≡◌};
ghost use Rattle.call_definitions.specs.Call.{no_place};
ghost use Rattle.texts.specs.Inner.Shown.{part_shown};

use crate::Part;

// "For a private event, or where there are none, the part has no bytes."
pub(crate) fn visible(public: bool, part: Part) -> Part
    ensures { part_shown result ≡ (if public then part_shown part else no_place 0) }
{
    if public {
        return part;
    }
    Part {
        start: 0,
        length: 0,
    }
}
