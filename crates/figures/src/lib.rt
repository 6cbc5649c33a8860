// The worked figures of the rules, proved about the definitions that the contracts use.
#![tactic(auto)]

ghost use Rattle.std.specs.Prelude.{◌≡◌, length};
ghost use Rattle.figures.specs.Figures.{figures, AllHold};

// All of them hold; the answer is how many there are.
pub fn worked_figures() -> usize
    ensures hold { AllHold figures }
    ensures count { result ≡ length figures }
{
    13
}
