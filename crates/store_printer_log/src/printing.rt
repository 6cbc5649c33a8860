// One round of calls over any printer.
use faults::Refusal;
use printers::printer::Printer;
use std::io;

// Kept so: the steps are data, since each kind goes through the same ones.
#[derive(Clone, Copy)]
pub enum Step {
    Take(usize),
    RunOut(usize),
    Reload,
}

const ROUND: [Step; 10] = [
    Step::Take(0),
    Step::Take(1355),
    Step::Take(1354),
    Step::Take(10),
    Step::RunOut(300),
    Step::Take(1),
    Step::Reload,
    Step::RunOut(100),
    Step::Reload,
    Step::Take(1),
];

fn take<P: Printer>(rt: &HostRuntime, printer: &mut P, len: usize) -> io::Result<()> {
    let line = vec![in rt.alloc(); b'A'; len]?;
    match printer.take(&line) {
        Ok(()) => print!(rt; "  take {len} bytes: done"),
        Err(why) => print!(rt;
            "  take {len} bytes: refused {}",
            Refusal::from(why).number()
        ),
    }
}

// Takes lines until the printer refuses, at most a thousand.
fn run_out<P: Printer>(rt: &HostRuntime, printer: &mut P, len: usize) -> io::Result<()> {
    let line = vec![in rt.alloc(); b'B'; len]?;
    let done = (0..1000u32)
        .take_while(|_| printer.take(&line).is_ok())
        .count();
    print!(rt; "  {done} lines of {len} bytes")
}

fn perform<P: Printer>(rt: &HostRuntime, printer: &mut P, step: Step) -> io::Result<()> {
    match step {
        Step::Take(len) => take(rt, printer, len)?,
        Step::RunOut(len) => run_out(rt, printer, len)?,
        Step::Reload => {
            printer.reload();
            print!(rt; "  reload")?
        }
    }
    println!(rt; ": taken {}, left {}", printer.taken(), printer.left())
}

pub(crate) fn drive<P: Printer + Drop>(
    rt: &HostRuntime,
    name: &str,
    amount: u64,
    mut printer: P,
) -> io::Result<()> {
    println!(rt;
        "{name} of {amount}: taken {}, left {}",
        printer.taken(),
        printer.left()
    )?;
    for step in ROUND {
        perform(rt, &mut printer, step)?;
    }
    Ok(())
}
