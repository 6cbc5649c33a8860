// The labels that are owed.
ghost use Rattle.std.specs.Prelude.{◌≡◌};
ghost use Rattle.station.specs.declared.mode.Issue.{Issue};
ghost use Rattle.station.specs.declared.mode.Mode.TheVariants.{Owing};
ghost use Rattle.station.specs.Seen.{seen_mode};
ghost use Rattle.station.specs.Steps.{one_less};
ghost use Rattle.station.specs.Views.{owed_in};

use crate::mode::Mode;

impl Mode {
    // One label of an issue less is owed. In place, since a mode has the room of a draft.
    pub(crate) fn one_less(&mut self)
        ensures { (issue : Issue) → self.old ≡ Owing issue → seen_mode self.new ≡ one_less issue.left issue.size }
    {
        match self {
            Mode::Owing(issue) if issue.left > 1 => issue.left -= 1,
            mode => *mode = Mode::Idle,
        }
    }

    pub(crate) fn owed(&self) -> u16
        ensures { result ≡ owed_in (seen_mode self.now) }
    {
        match self {
            Mode::Idle | Mode::Saving(_) => 0,
            Mode::Owing(issue) => issue.left,
        }
    }
}
