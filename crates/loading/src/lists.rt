// The lists of an event, each of which may be absent.
ghost use Rattle.std.specs.Prelude.{[], ◌≡◌, length};
ghost use Rattle.property.specs.Inner.From.{value_in};
ghost use Rattle.event.specs.Overrides.{read_overrides};
ghost use Rattle.event.specs.Reading.{present};
ghost use Rattle.event.specs.Rules.{read_rules};
ghost use Rattle.event.specs.Types.{Details};
ghost use Rattle.override_text.specs.Inner.Lists.{Filled};
ghost use Rattle.event_text.specs.Inner.Front.{inner};
ghost use Rattle.loading.specs.Inner.Rules.{ListReady, SettledRules};
ghost use Rattle.loading.specs.Inner.Patches.{patches_in, OverridesReady};

use crate::rules::load_rules;
use dates::Tracks;
use dates::load::no_tracks;
use override_text::lists::overrides;

// The rules of a list that was read without a fault. The flags are room for eight rows.
pub(crate) fn load_list(
    text: &[u8],
    ends: &[u32],
    place: Option<usize>,
    excluded: bool,
    start: u64,
    limit: u32,
    flags: &mut [bool],
) -> Tracks
    requires { ListReady ((present [] read_rules (value_in inner text.now place)).faults ≡ []) text.now ends.now start limit (length flags.old) }
    ensures { SettledRules excluded start limit (present [] read_rules (value_in inner text.now place)).value result flags.new }
{
    match place {
        None => no_tracks(),
        Some(at) => load_rules(text, ends, at, excluded, start, limit, flags),
    }
}

// The first 256 overrides: more are not accepted. They do not depend on the event's own details but for what their patches leave as it is.
pub(crate) fn load_overrides(
    text: &[u8],
    ends: &[u32],
    place: Option<usize>,
    ids: &mut [u64],
    gone: &mut [bool],
    places: &mut [usize],
) -> usize
    requires { OverridesReady text.now ends.now (length ids.old) (length gone.old) (length places.old) }
    ensures { (own : Details) → Filled (present [] (read_overrides own) (value_in inner text.now place)).value (patches_in text.now place) ids.old ids.new gone.old gone.new places.old places.new result }
{
    match place {
        None => 0,
        Some(at) => overrides(text, ends, at, ids, gone, places),
    }
}
