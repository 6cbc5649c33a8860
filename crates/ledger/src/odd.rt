// Odd cases of the words on a run, proved about the definitions that the contract of a run uses.
ghost use Rattle.std.specs.Prelude.{◌≡◌, length};
ghost use Rattle.ledger.specs.OddCases.{odd_cases, AllHold};

// All of them hold; the answer is how many there are.
pub fn odd_cases_of_words() -> usize
    ensures hold { AllHold odd_cases }
    ensures count { result ≡ length odd_cases }
{
    28
}
