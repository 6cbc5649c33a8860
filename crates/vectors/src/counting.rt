// Runs of five labels as TPCL printers print them.
use std::io;
use texts::checks::Check;
use texts::digits::{Code128Rule, PlainRule};
use texts::rule::CountingRule;
use texts::text::Text;

struct Run {
    start: &'static str,
    step: i64,
    kept: Option<u8>,
    // parted by |
    labels: &'static str,
}

const PLAIN: [Run; 9] = [
    Run {
        start: "0000",
        step: 10,
        kept: None,
        labels: "0000|0010|0020|0030|0040",
    },
    Run {
        start: "0000",
        step: 10,
        kept: Some(5),
        labels: "0000|0010|0020|0030|0040",
    },
    Run {
        start: "0000",
        step: 10,
        kept: Some(3),
        labels: " 000| 010| 020| 030| 040",
    },
    Run {
        start: "999999",
        step: 1,
        kept: Some(3),
        labels: "999999|   000|   001|   002|   003",
    },
    Run {
        start: "00000",
        step: 1,
        kept: None,
        labels: "00000|00001|00002|00003|00004",
    },
    Run {
        start: "A0A0A",
        step: 1,
        kept: None,
        labels: "A0A0A|A0A1A|A0A2A|A0A3A|A0A4A",
    },
    Run {
        start: "7A8/9",
        step: 3,
        kept: None,
        labels: "7A8/9|7A9/2|7A9/5|7A9/8|8A0/1",
    },
    Run {
        start: "A2A0A",
        step: -3,
        kept: None,
        labels: "A2A0A|A1A7A|A1A4A|A1A1A|A0A8A",
    },
    Run {
        start: "0123",
        step: 0,
        kept: Some(4),
        labels: "0123|0123|0123|0123|0123",
    },
];

const CODE_128: [Run; 4] = [
    Run {
        start: "00000",
        step: 1,
        kept: None,
        labels: "00000|00001|00002|00003|00004",
    },
    Run {
        start: "00>08",
        step: 1,
        kept: None,
        labels: "00>08|00>09|01>00|01>01|01>02",
    },
    Run {
        start: "0A>08",
        step: 1,
        kept: None,
        labels: "0A>08|0A>09|1A>00|1A>01|1A>02",
    },
    Run {
        start: "0A9>08",
        step: 1,
        kept: None,
        labels: "0A9>08|0A9>09|1A0>00|1A0>01|1A0>02",
    },
];

// Whether a run prints just its labels.
fn holds<R: CountingRule>(rule: &R, run: &Run) -> bool {
    let Ok(mut text) = Text::from_bytes(run.start.as_bytes()) else {
        return false;
    };
    for label in run.labels.split('|') {
        let finished = text.finished(Check::NoCheck, run.kept);
        if finished.as_bytes() != label.as_bytes() {
            return false;
        }
        text = text.turned(rule, run.step);
    }
    true
}

fn run_table<R: CountingRule>(
    rt: &HostRuntime,
    name: &str,
    rule: &R,
    table: &[Run],
) -> io::Result<()> {
    for run in table {
        let start = run.start;
        let step = run.step;
        let verdict = if holds(rule, run) { "right" } else { "WRONG" };
        println!(rt; "{name} {start} by {step}: {verdict}")?;
    }
    Ok(())
}

pub(crate) fn run_all(rt: &HostRuntime) -> io::Result<()> {
    run_table(rt, "plain", &PlainRule, &PLAIN)?;
    run_table(rt, "code 128", &Code128Rule, &CODE_128)
}
