// The answer of a text: 0, or the lowest of 1 to 4 that applies.
ghost use Rattle.std.specs.Prelude.{◌≡◌, ◌≤◌};
ghost use Rattle.json_ends.specs.Inner.Ends.{Ends};
ghost use Rattle.json_strict.specs.Answer.{answer_of};
ghost use Rattle.json_strict.specs.Inner.Judged.{Judged};

use crate::slashes::paired;
use json_ends::whole::whole;
use json_names::whole::text_fault;
use json_text::SyntaxError;

// A text longer than this many bytes answers 1.
const LIMIT: usize = 65536;

// The answer, with a table of ends that is filled on the way: it spares the walks, and those that follow, the reading of what
// they pass over.
pub fn judge(text: &[u8], ends: &mut [u32]) -> u32
    requires { Ends text.now ends.old }
    ensures { Judged text.now ends.new result }
{
    if LIMIT < text.len() {
        return 1;
    }
    match whole(text, ends) {
        Ok(_) => {
            if !paired(text) {
                return 3;
            }
            if text_fault(text, ends) {
                return 4;
            }
            0
        }
        Err(SyntaxError::Malformed) => 3,
        Err(SyntaxError::TooDeep) => 2,
    }
}

// The answer, with a table of N ends. A longer text has its answer too, in more time.
#[tactic(auto, using(crate::proofs::Zeros::ends_none))]
fn answer_in<const N: usize>(text: &[u8]) -> u32
    requires { N ≤ 65536 }
    ensures { result ≡ answer_of text.now }
{
    let mut ends = [0u32; N];
    judge(text, &mut ends)
}

// The answer, for a caller with no table. Most texts are short, and need not clear the room of the longest.
pub fn answer(text: &[u8]) -> u32
    ensures { result ≡ answer_of text.now }
{
    if text.len() <= 2048 {
        return answer_in::<2048>(text);
    }
    answer_in::<65536>(text)
}
