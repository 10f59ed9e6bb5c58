// Small steps of the walk over members: which values hold others, and the names put down one after the other.
ghost use Rattle.std.specs.Prelude.{◌≡◌, ◌≤◌, length};
ghost use Rattle.json_text.specs.Bytes.{byte};
ghost use Rattle.json_names.specs.Inner.Walked.{opener};

use json_text::bytes::byte;

// Does an object or an array begin at a place?
#[tactic(auto, unfolding(crate::specs::Inner::Walked::opener))]
pub(crate) fn opens(text: &[u8], at: usize) -> bool
    ensures { result ≡ opener (byte text.now at) }
{
    matches!(byte(text, at), 0x7B | 0x5B)
}

// Puts an entry after the first k, if there is room, and says how many there are then.
pub(crate) fn append(order: &mut [u64], k: usize, entry: u64) -> usize
    requires { k ≤ length order.old }
    ensures { (length order.new ≡ length order.old) × (k ≤ result) × (result ≤ length order.old) }
{
    if k < order.len() {
        order[k] = entry;
        return k + 1;
    }
    k
}
