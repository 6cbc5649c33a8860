// Reading with the law that a command is read alike wherever it stands.
#![tactic(auto)]

ghost use Rattle.std.specs.Prelude.{◌≡◌};
ghost use Rattle.job.specs.Reading.{read_at, seen_answer, answer_of, next_of};
ghost use Rattle.joblaw.specs.Located.{ReadAlike, Anywhere};

use job::fault::ReadFault;
use job::read::read;
use jobgroups::command::Command;

/// Reads the command at a place. Where that is a whole command, the answer is that to the command alone,
/// moved to its place.
pub fn read_anywhere<'a>(job: &'a [u8], at: usize) -> (Result<Command<'a>, ReadFault>, usize)
    ensures answer { seen_answer result.0 ≡ answer_of (read_at job.now at) }
    ensures next { result.1 ≡ next_of (read_at job.now at) }
    ensures alike { ReadAlike job.now at (seen_answer result.0) }
    ensures anywhere { Anywhere }
{
    read(job, at)
}
