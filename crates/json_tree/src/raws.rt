// The raw bytes of a string, as a part of the text.
ghost use Rattle.std.specs.Prelude.{◌≡◌, ◌+◌, ◌≤◌, length};
ghost use Rattle.json_walk.specs.Strings.{raw_at};

// The bytes between the quotes of a string that stands at a place and stops before another.
pub fn raw(text: &[u8], at: usize, stop: usize) -> &[u8]
    requires { (at + 2 ≤ stop) × (stop ≤ length text.now) }
    ensures { result.now ≡ raw_at text.now at stop }
{
    let from = at + 1;
    let to = stop - 1;
    &text[from..to]
}
