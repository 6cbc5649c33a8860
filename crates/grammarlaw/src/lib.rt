// Reading with the law of the grammar: how a command is written from its parts, and what reading its bytes comes to.
#![tactic(auto)]

ghost use Rattle.std.specs.Prelude.{◌≡◌, ℕ, Bool, true, List, IfOk};
ghost use Rattle.jobgroups.specs.Table.{parts_of};
ghost use Rattle.jobgroups.specs.declared.letters.Letters.{Letters};
ghost use Rattle.job.specs.Reading.{read_at, seen_answer, answer_of, next_of};
ghost use Rattle.grammarlaw.specs.Commands.{OnePlace};
ghost use Rattle.grammarlaw.specs.Fits.{CommandFits};
ghost use Rattle.grammarlaw.specs.Laid.{is_laid};
ghost use Rattle.grammarlaw.specs.Laws.{Laws};
ghost use Rattle.grammarlaw.specs.Meant.{CommandMeant};
ghost use Rattle.grammarlaw.specs.Placed.{CommandStands};
ghost use Rattle.grammarlaw.specs.Rows.{steps_of};
ghost use Rattle.grammarlaw.specs.Frames.{ReadLaws, Reading};
ghost use Rattle.grammarlaw.specs.Spelled.{SpelledAt};

use job::fault::ReadFault;
use job::read::read;
use jobgroups::command::Command;

/// Reads the command at a place.
pub fn read_by_grammar<'a>(job: &'a [u8], at: usize) -> (Result<Command<'a>, ReadFault>, usize)
    ensures answer { seen_answer result.0 ≡ answer_of (read_at job.now at) }
    ensures next { result.1 ≡ next_of (read_at job.now at) }

    // What the answer says of the job's bytes, and which bytes get it.
    ensures grammar { ReadLaws job.now at (seen_answer result.0) result.1 }

    // A command that was read stands there, from its ESC to its NUL.
    ensures spelled { IfOk (seen_answer result.0) (SpelledAt job.now at result.1) }

    // Each part of a command that was read has the bytes that it needs to be meant.
    ensures fits { IfOk (seen_answer result.0) CommandFits }
    ensures meant { IfOk (seen_answer result.0) CommandMeant }
    ensures stand { IfOk (seen_answer result.0) (CommandStands job.now) }

    // The same of what reading is defined to answer, and of every table whose rows are laid as those of this one are.
    ensures reading { Reading }
    ensures one_place { (body : List ℕ) → OnePlace body }
    ensures rows { Laws }
    ensures table { (letters : Letters) → is_laid (steps_of (parts_of letters)) ≡ true }
{
    read(job, at)
}

#[cfg(test)]
mod tests {
    use super::read_by_grammar;
    use job::fault::ReadFault;
    use joblaw::read_anywhere;
    use jobparts::part::ReadRefusal;

    // A command, a size with a letter among its digits, and a size whose pitch is above its limit.
    const JOB: &[u8] = b"\x1bC\n\0\x1bD0300,0A00,0300\n\0\x1bD1501,0300,0300\n\0";

    fn place_of(at: usize) -> Option<(ReadRefusal, usize, usize)> {
        match read_by_grammar(JOB, at).0 {
            Ok(_) => None,
            Err(
                ReadFault {
                    refusal,
                    place,
                    next,
                },
            ) => Some((refusal, place, next)),
        }
    }

    #[test]
    fn read_broken_and_not_admitted(rt: HostRuntime) {
        assert!(rt; read_by_grammar(JOB, 0).1 == 4);
        assert!(rt; place_of(0).is_none());
        assert!(rt; place_of(4) == Some((ReadRefusal::WrongByte, 12, 22)));
        assert!(rt; place_of(22) == Some((ReadRefusal::NotAdmitted, 24, 40)));
        assert!(rt; read_anywhere(JOB, 22).1 == 40);
    }
}
