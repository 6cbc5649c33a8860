// A run of calls: refused ones, short buffers and reloads among them.
use jobparts::bytes::first;
use ledger::log::{LentCall, LogEntry};
use ledger::running::run_station;
use printers::roll::Roll;
use std::test::Fail;
use stores::packed::PackedStore;
use texts::digits::{Code128Rule, PlainRule};

// A text without a format, an issue of two labels, and a question for the status.
const JOB: &[u8] = b"\x1bRC001;X\n\0\x1bXS;I,0002,0002C3000\n\0\x1bWS\n\0";

const ISSUE: usize = 10;

const STATUS: usize = 32;

fn command(at: usize, answer: usize, work: usize) -> LogEntry<'static> {
    LogEntry {
        call: LentCall::Command {
            job: JOB,
            at,
            answer,
            work,
        },
        accepted: false,
    }
}

fn print(work: usize) -> LogEntry<'static> {
    LogEntry {
        call: LentCall::Print { work },
        accepted: false,
    }
}

fn reload() -> LogEntry<'static> {
    LogEntry {
        call: LentCall::Reload,
        accepted: false,
    }
}

#[test]
fn calls_on_a_roll_of_one(rt: HostRuntime) -> Result<(), Fail> {
    let mut log = [
        command(0, 16, 1404),
        command(ISSUE, 12, 1404),
        command(ISSUE, 16, 1399),
        print(1404),
        command(ISSUE, 16, 1404),
        print(1399),
        print(1404),
        print(1404),
        command(ISSUE, 16, 1404),
        reload(),
        print(1404),
        print(1404),
        command(STATUS, 16, 1404),
    ];
    let accepted = [
        false, false, false, false, true, false, true, false, false, true, true, false, true,
    ];
    let mut answer = [0xaa_u8; 16];
    let mut work = [0xaa_u8; 1404];
    let _station = run_station(
        PackedStore::new(),
        Roll::new(1)?,
        PlainRule,
        Code128Rule,
        &mut log,
        &mut answer,
        &mut work,
    );
    for (entry, want) in log.iter().zip(accepted) {
        assert_eq!(rt; entry.accepted, want);
    }
    assert!(rt; &answer == b"\x01\x020010000\x03\x04\r\n\xaa\xaa\xaa");
    assert!(rt; first(&work, 11) == b"0002,0002\n\xaa".as_slice());
    Ok(())
}
