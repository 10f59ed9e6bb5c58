// The whole text: a value between white space, and nothing else. The ends of its names and values are kept on the way.
ghost use Rattle.std.specs.Prelude.{◌≡◌};
ghost use Rattle.json_value.specs.Values.{text_at};
ghost use Rattle.json_ends.specs.Inner.Ends.{Ends};
ghost use Rattle.json_ends.specs.Inner.Found.{Found};

use crate::read::result_of;
use crate::reading::value;
use json_text::SyntaxError;
use json_text::bytes::space;
use json_value::LEVELS;

#[tactic(auto, unfolding(json_value::specs::Values::text_at, json_value::specs::Values::end_at))]
pub fn whole(text: &[u8], ends: &mut [u32]) -> Result<usize, SyntaxError>
    requires { Ends text.now ends.old }
    ensures { Found (text_at text.now) text.now ends.new result }
{
    let j = result_of(value(text, ends, space(text, 0), LEVELS))?;
    let k = space(text, j);
    if k == text.len() {
        return Ok(k);
    }
    Err(SyntaxError::Malformed)
}
