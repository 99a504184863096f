// The two faults that readers find.
ghost use Rattle.std.specs.Prelude.{◌≡◌};
ghost use Rattle.syntax.specs.model.Says.{wrong_at, deep_at};

use answers::Answer;
use grammar::Fault;

// No program has this symbol there.
pub fn wrong(at: usize) -> Fault
    ensures { result ≡ wrong_at at }
{
    Fault {
        answer: Answer::GRAMMAR,
        at,
    }
}

// What begins there would be one level too deep.
pub fn too_deep(at: usize) -> Fault
    ensures { result ≡ deep_at at }
{
    Fault {
        answer: Answer::DEPTH,
        at,
    }
}
