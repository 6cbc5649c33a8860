// What is asked of a station in a run: calls, and whether each was accepted.

// A call. It borrows its job, and says how many bytes of the run's buffers it is lent, so that any refusal can come.
#[derive(Clone, Copy)]
pub enum LentCall<'a> {
    Command {
        job: &'a [u8],
        at: usize,
        answer: usize,
        work: usize,
    },
    Print {
        work: usize,
    },
    Reload,
}

// Kept so: a call is accepted or refused, and the ledger takes no other word of it; there is no value beside the flag.
#[derive(Clone, Copy)]
pub struct LogEntry<'a> {
    pub call: LentCall<'a>,
    pub accepted: bool,
}
