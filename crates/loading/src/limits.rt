// The days that a window asks for: rules are settled no further.
ghost use Rattle.std.specs.Prelude.{◌≡◌};
ghost use Rattle.loading.specs.Inner.Limit.{limit_of};

#[tactic(auto, unfolding(crate::specs::Inner::Limit::limit_of))]
pub fn limit_of(to: u64) -> u32
    ensures { result ≡ limit_of to }
{
    (to / 86400 + 1).min(3067672) as u32
}
