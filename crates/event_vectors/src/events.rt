// An event on the output: the number, its place, and what was read.
ghost use Rattle.json_ends.specs.Inner.Ends.{Ends};

use crate::print::{mark, passage, say, show};
use event_text::Head;
use event_text::heads::own_of;
use keywords::Privacy;
use override_text::Own;
use override_text::patches::patch;
use std::io;

fn privacy(rt: &impl Print, p: Privacy) -> io::Result<()> {
    match p {
        Privacy::Public => show(rt, 0),
        Privacy::Private => show(rt, 1),
        Privacy::Secret => show(rt, 2),
    }
}

fn details(rt: &impl Print, text: &[u8], own: Own) -> io::Result<()> {
    say(rt, b" start ")?;
    show(rt, own.start)?;
    say(rt, b" days ")?;
    show(rt, own.days)?;
    say(rt, b" seconds ")?;
    show(rt, own.seconds)?;
    mark(rt, b" busy ", own.busy)?;
    mark(rt, b" allday ", own.allday)?;
    passage(rt, b" title ", text, own.title)?;
    passage(rt, b" description ", text, own.description)?;
    say(rt, b"\n")
}

fn override_line(
    rt: &impl Print,
    text: &[u8],
    ends: &[u32],
    own: Own,
    id: u64,
    gone: bool,
    at: usize,
) -> io::Result<()>
    requires { Ends text.now ends.now }
{
    say(rt, b"override ")?;
    show(rt, id)?;
    mark(rt, b" excluded ", gone)?;
    let p = patch(text, ends, at, own, id);
    details(
        rt,
        text,
        Own {
            start: p.start,
            days: p.days,
            seconds: p.seconds,
            busy: p.busy,
            allday: p.allday,
            title: p.title,
            description: p.description,
        },
    )
}

fn overrides(rt: &impl Print, text: &[u8], ends: &[u32], own: Own, at: usize) -> io::Result<()>
    requires { Ends text.now ends.now }
{
    let mut ids = [0u64; 256];
    let mut gone = [false; 256];
    let mut places = [0usize; 256];
    let n = override_text::lists::overrides(text, ends, at, &mut ids, &mut gone, &mut places);
    for ((id, gone), at) in ids.iter().zip(&gone).zip(&places).take(n) {
        override_line(rt, text, ends, own, *id, *gone, *at)?;
    }
    Ok(())
}

fn accepted(rt: &impl Print, text: &[u8], ends: &[u32], head: Head) -> io::Result<()>
    requires { Ends text.now ends.now }
{
    let own = own_of(head);
    say(rt, b"event privacy ")?;
    privacy(rt, head.privacy)?;
    passage(rt, b" zone ", text, head.zone)?;
    details(rt, text, own)?;
    crate::rules::rules(rt, b"rule ", text, ends, head.rules)?;
    crate::rules::rules(rt, b"excluded ", text, ends, head.excluded)?;
    match head.overrides {
        None => Ok(()),
        Some(at) => overrides(rt, text, ends, own, at),
    }
}

fn judged(rt: &impl Print, text: &[u8], ends: &[u32]) -> io::Result<()>
    requires { Ends text.now ends.now }
{
    let head = event_text::heads::head(text, ends);
    let first = event_text::whole::event_first(text, ends, head);
    let answer = fault::number_of(first);
    show(rt, answer)?;
    say(rt, b" ")?;
    show(rt, fault::place_of(first))?;
    say(rt, b"\n")?;
    if answer == 0 {
        return accepted(rt, text, ends, head);
    }
    Ok(())
}

pub(crate) fn event(rt: &impl Print, text: &[u8]) -> io::Result<()> {
    let mut ends = [0u32; 65536];
    json_strict::answer::judge(text, &mut ends);
    judged(rt, text, &ends)
}
