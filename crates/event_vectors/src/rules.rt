// A list of rules on the output, a line each.
ghost use Rattle.json_ends.specs.Inner.Ends.{Ends};

use crate::print::{say, show};
use rule::{End, Frequency, Rule};
use std::io;

fn frequency(rt: &impl Print, rate: Frequency) -> io::Result<()> {
    match rate {
        Frequency::Daily => show(rt, 0),
        Frequency::Weekly => show(rt, 1),
        Frequency::Monthly => show(rt, 2),
        Frequency::Yearly => show(rt, 3),
    }
}

fn end(rt: &impl Print, end: End) -> io::Result<()> {
    match end {
        End::Never => say(rt, b" never"),
        End::Until(last) => {
            say(rt, b" until ")?;
            show(rt, last)
        }
        End::Count(most) => {
            say(rt, b" count ")?;
            show(rt, most)
        }
    }
}

// The first entries of a list.
fn numbers(rt: &impl Print, name: &[u8], list: &[i64], count: usize) -> io::Result<()> {
    say(rt, name)?;
    for z in list.iter().take(count) {
        say(rt, b" ")?;
        show(rt, *z)?;
    }
    Ok(())
}

fn months(rt: &impl Print, list: &[u32], count: usize) -> io::Result<()> {
    say(rt, b" months")?;
    for month in list.iter().take(count) {
        say(rt, b" ")?;
        show(rt, *month)?;
    }
    Ok(())
}

fn days(rt: &impl Print, weekdays: &[u32], nths: &[i64], count: usize) -> io::Result<()> {
    say(rt, b" days")?;
    for (weekday, z) in weekdays.iter().zip(nths).take(count) {
        say(rt, b" ")?;
        show(rt, *weekday)?;
        say(rt, b":")?;
        show(rt, *z)?;
    }
    Ok(())
}

fn lists(rt: &impl Print, rule: Rule) -> io::Result<()> {
    days(rt, &rule.weekdays, &rule.nths, rule.days)?;
    numbers(rt, b" dates", &rule.dates, rule.datecount)?;
    months(rt, &rule.months, rule.monthcount)?;
    numbers(rt, b" positions", &rule.positions, rule.positioncount)
}

fn line(rt: &impl Print, kind: &[u8], text: &[u8], ends: &[u32], at: usize) -> io::Result<()>
    requires { Ends text.now ends.now }
{
    let read = rule_text::rules::read_rule(text, ends, at);
    if read.fault.is_some() {
        return Ok(());
    }
    let rule = read.rule;
    say(rt, kind)?;
    frequency(rt, rule.frequency)?;
    say(rt, b" interval ")?;
    show(rt, rule.interval)?;
    say(rt, b" first ")?;
    show(rt, rule.first)?;
    lists(rt, rule)?;
    end(rt, rule.end)?;
    say(rt, b"\n")
}

fn all(rt: &impl Print, kind: &[u8], text: &[u8], ends: &[u32], at: usize) -> io::Result<()>
    requires { Ends text.now ends.now }
{
    let mut places = [0usize; 8];
    let n = rule_text::places::rule_places(text, ends, at, &mut places);
    for place in places.iter().take(n) {
        line(rt, kind, text, ends, *place)?;
    }
    Ok(())
}

pub(crate) fn rules(
    rt: &impl Print,
    kind: &[u8],
    text: &[u8],
    ends: &[u32],
    place: Option<usize>,
) -> io::Result<()>
    requires { Ends text.now ends.now }
{
    match place {
        None => Ok(()),
        Some(at) => all(rt, kind, text, ends, at),
    }
}
