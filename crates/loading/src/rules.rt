// The rules of a list, read one after the other and settled.
ghost use Rattle.std.specs.Prelude.{◌≡◌, length, []};
ghost use Rattle.json_tree.specs.Tree.{tree_at};
ghost use Rattle.event.specs.Rules.{read_rules};
ghost use Rattle.loading.specs.Inner.Rules.{ListReady, Faultless, rules_at, SettledRules};

use dates::Tracks;
use dates::load::{load, no_tracks};
use rule_text::places::rule_places;
use rule_text::rules::read_rule;

// The rules at these places. The flags are room for eight rows.
fn load_places(
    text: &[u8],
    ends: &[u32],
    places: &[usize],
    excluded: bool,
    start: u64,
    limit: u32,
    flags: &mut [bool],
) -> Tracks
    requires { ListReady (Faultless text.now places.now) text.now ends.now start limit (length flags.old) }
    ensures { SettledRules excluded start limit (rules_at text.now places.now) result flags.new }
{
    let mut tracks = no_tracks();
    for at in places {
        let read = read_rule(text, ends, *at);
        tracks = load(excluded, read.rule, start, limit, tracks, flags);
    }
    tracks
}

// The rules of the list at a place, which was read without a fault.
pub(crate) fn load_rules(
    text: &[u8],
    ends: &[u32],
    at: usize,
    excluded: bool,
    start: u64,
    limit: u32,
    flags: &mut [bool],
) -> Tracks
    requires { ListReady ((read_rules (tree_at 15 text.now at)).faults ≡ []) text.now ends.now start limit (length flags.old) }
    ensures { SettledRules excluded start limit (read_rules (tree_at 15 text.now at)).value result flags.new }
{
    let mut places = [0usize; 8];
    let n = rule_places(text, ends, at, &mut places);
    load_places(text, ends, &places[..n], excluded, start, limit, flags)
}
