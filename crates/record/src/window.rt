// Local seconds, signed and from 1970 where they come in and go out, natural and from 1600 inside; and the window of a call.
ghost use Rattle.std.specs.Prelude.{◌≡◌, ◌<◌, ◌^◌};
ghost use Rattle.call_definitions.specs.Window.{since1600, since1970, valid_window};

// The seconds from 1600-01-01T00:00:00 to 1970-01-01T00:00:00.
const EPOCH: u64 = 11676096000;

// What lies before 1600 is 0: no date-time of the profile does.
pub fn since_1600(t: i64) -> u64
    ensures { result ≡ since1600 t }
{
    let above = signed::positive_part(t) + EPOCH;
    let below = signed::negative_part(t);
    above.saturating_sub(below)
}

#[tactic(auto, unfolding(call_definitions::specs::Window::since1970))]
pub fn since_1970(x: u64) -> i64
    requires { x < 2 ^ 63 }
    ensures { result ≡ since1970 x }
{
    signed::difference(x, EPOCH)
}

// Any two numbers may arrive.
#[tactic(auto, unfolding(call_definitions::specs::Window::valid_window))]
pub fn valid_window(from: i64, to: i64) -> bool
    ensures { result ≡ valid_window from to }
{
    -11644473600 <= from && from <= to && to <= 253370764800
}
