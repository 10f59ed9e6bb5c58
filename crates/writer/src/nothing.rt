// The table with no records: a secret event has only the trailer.
ghost use Rattle.std.specs.Prelude.{[]};
ghost use Rattle.sheet.specs.Writing.{sheet_of};
ghost use Rattle.call_definitions.specs.Bytes.{written_version};
ghost use Rattle.call_definitions.specs.Results.{Gives};
ghost use Rattle.writer.specs.Inner.Table.{fitted};

use crate::Done;
use record::rows::put_trailer;

pub fn put_trailer_alone(buffer: &mut [u8]) -> Done
    ensures { Gives (fitted (sheet_of written_version []) buffer.old) result.answer result.length buffer.new }
{
    if buffer.len() < 12 {
        return Done {
            answer: 13,
            length: 0,
        };
    }
    put_trailer(buffer, 0, 0);
    Done {
        answer: 0,
        length: 12,
    }
}
