// The run of an order: its finished texts, each one step on from the one before.
ghost use Rattle.std.specs.Prelude.{◌≡◌};
ghost use Rattle.texts.specs.Contents.{contents};
ghost use Rattle.texts.specs.Finishing.{finished_text};
ghost use Rattle.texts.specs.Printed.{printed};
ghost use Rattle.texts.specs.Turning.{turned};

use crate::order::{Order, RuleName};
use std::io;
use std::io::{BufWriter, Write};
use texts::digits::{Code128Rule, PlainRule};
use texts::finished::Finished;
use texts::rule::CountingRule;
use texts::text::Text;

// One tag: what is printed of the text, which then goes one step on.
fn next_tag<R: CountingRule>(rule: &R, order: &Order, text: &mut Text) -> Finished
    ensures tag { let order = order.now in
        printed result ≡ finished_text order.check order.kept (contents text.old) }
    ensures text { let wheels = R.CountingRule.wheels rule.now in
        contents text.new ≡ turned wheels (contents text.old) order.now.step }
{
    let tag = text.finished(order.check, order.kept);
    *text = text.turned(rule, order.step);
    tag
}

fn print_texts<R: CountingRule>(rt: &HostRuntime, rule: &R, order: &Order) -> io::Result<()> {
    let mut out = BufWriter::new(rt.alloc(), rt.stdout())?;
    let mut text = order.text;
    for _ in 0..order.count {
        let tag = next_tag(rule, order, &mut text);
        out.write_all(tag.as_bytes())?;
        out.write_all(b"\n")?;
    }
    out.flush()
}

pub(crate) fn print_run(rt: &HostRuntime, number: u64, order: &Order) -> io::Result<()> {
    let count = order.count;
    println!(rt; "line {number}: {count} texts")?;
    match order.rule {
        RuleName::Plain => print_texts(rt, &PlainRule, order),
        RuleName::Code128 => print_texts(rt, &Code128Rule, order),
    }
}
