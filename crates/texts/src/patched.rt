// The title or the description of one occurrence, by the place of its opening quote.
ghost use Rattle.std.specs.Prelude.{if◌then◌else◌, ◌≡◌, length};
ghost use Rattle.json_ends.specs.Inner.Ends.{Ends};
ghost use Rattle.property.specs.Inner.From.{text_in};
ghost use Rattle.override_text.specs.Inner.Meaning.{details_in};
ghost use Rattle.writer.specs.Inner.Details.{patch_details, details_by};
ghost use Rattle.texts.specs.Inner.Shown.{chosen};

use override_text::Own;
use override_text::patches::patch;
use writer::times::patch_of;

fn choose(title: bool, first: Option<usize>, second: Option<usize>) -> Option<usize>
    ensures { result ≡ (if title then first else second) }
{
    if title {
        return first;
    }
    second
}

// The text of the occurrence `id` after the patch at a place.
fn text_patched(
    text: &[u8],
    ends: &[u32],
    title: bool,
    at: usize,
    own: Own,
    id: u64,
) -> Option<usize>
    requires { Ends text.now ends.now }
    ensures { text_in text.now result ≡ chosen title (patch_details (details_in text.now own) text.now at id) }
{
    let p = patch(text, ends, at, own, id);
    choose(title, p.title, p.description)
}

// The text of the occurrence x: after its patch where an override names it, else the event's own. The ids may stand in any order.
pub(crate) fn text_by(
    text: &[u8],
    ends: &[u32],
    title: bool,
    own: Own,
    ids: &[u64],
    places: &[usize],
    x: u64,
) -> Option<usize>
    requires { Ends text.now ends.now × (length ids.now ≡ length places.now) }
    ensures { text_in text.now result ≡ chosen title (details_by text.now (details_in text.now own) ids.now places.now x) }
{
    match patch_of(ids, places, false, x) {
        Some(at) => text_patched(text, ends, title, at, own, x),
        None => choose(title, own.title, own.description),
    }
}
