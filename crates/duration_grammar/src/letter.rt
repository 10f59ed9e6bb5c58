// Letters of either case.
ghost use Rattle.std.specs.Prelude.{◌≡◌};
ghost use Rattle.duration_grammar.specs.Letter.{upper};

#[tactic(auto, unfolding(crate::specs::Letter::upper))]
pub fn upper(b: u8) -> u8
    ensures { result ≡ upper b }
{
    b.to_ascii_uppercase()
}
