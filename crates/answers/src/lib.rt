// The numbers of paper 01, "Numbered answers", and what carries them. Places, symbols, declarations and code addresses
// are types of their own, so that none is taken for another; answer and environment numbers are constants of their types.
#![tactic(auto)]

ghost use Rattle.std.specs.Prelude.{◌≡◌};
ghost use Rattle.answers.specs.Numbers.{accepted, ended, short, long, no_symbol, too_large, grammar, depth, twice, undeclared, heading, types, limit, range, zero_divisor, unassigned, input_ended, output_full, cells, activations, channel, no_instruction, no_variable, too_many_sets, iabs, maxint, ininteger, outinteger, outreal};
ghost use Rattle.answers.specs.Answers.{answer, environment, refusal, number_of, place_of, stop_number, stop_place};

// A byte of the source, counted from 0.
#[derive(Clone, Copy, PartialEq, Eq, Debug)]
pub struct Place {
    pub at: usize,
}

// A symbol of the source, counted from 0: which one it is, where a `Place` says at which byte.
#[derive(Clone, Copy, PartialEq, Eq, Debug)]
pub struct Ordinal {
    pub number: u16,
}

// A declaration or formal, counted from 0 in source order.
#[derive(Clone, Copy, PartialEq, Eq, Debug)]
pub struct Declaration {
    pub number: usize,
}

// An instruction of the code, counted from 0.
#[derive(Clone, Copy, PartialEq, Eq, Debug)]
pub struct Address {
    pub at: u32,
}

// An answer's number.
// Kept: what may not change, the definitions `answer` and `refusal` hold any number, and 0 is both accepted and ended.
#[derive(Clone, Copy, PartialEq, Eq, Debug)]
pub struct Answer {
    pub number: u16,
}

// A number of the environment.
#[derive(Clone, Copy, PartialEq, Eq, Debug)]
pub struct Environment {
    pub number: u16,
}

impl Answer {
    // Accepted.
    pub const ACCEPTED: Answer = Answer { number: 0 };
    // The run ended.
    pub const ENDED: Answer = Answer { number: 0 };
    // read's table, or translate's code, is too short.
    pub const SHORT: Answer = Answer { number: 1 };
    // The source is too long.
    pub const LONG: Answer = Answer { number: 2 };
    // No symbol; an open apostrophe; a note without `;`.
    pub const NO_SYMBOL: Answer = Answer { number: 3 };
    // A number or name too large, or one symbol too many.
    pub const TOO_LARGE: Answer = Answer { number: 4 };
    // A symbol that no program can have there.
    pub const GRAMMAR: Answer = Answer { number: 5 };
    // One level too deep.
    pub const DEPTH: Answer = Answer { number: 6 };
    // Declared twice in one block, or a formal repeated.
    pub const TWICE: Answer = Answer { number: 7 };
    // No declaration, formal or environment entry.
    pub const UNDECLARED: Answer = Answer { number: 8 };
    // A value or specification part that does not fit the formals.
    pub const HEADING: Answer = Answer { number: 9 };
    // A type fault.
    pub const TYPES: Answer = Answer { number: 10 };
    // The instruction limit is reached.
    pub const LIMIT: Answer = Answer { number: 20 };
    // A result outside the whole numbers of 32 bits.
    pub const RANGE: Answer = Answer { number: 21 };
    // A divisor that is zero.
    pub const ZERO_DIVISOR: Answer = Answer { number: 22 };
    // An unassigned variable, formal or needed result read.
    pub const UNASSIGNED: Answer = Answer { number: 23 };
    // No input number is left.
    pub const INPUT_ENDED: Answer = Answer { number: 24 };
    // No room for one more output number.
    pub const OUTPUT_FULL: Answer = Answer { number: 25 };
    // One more cell than the run may use.
    pub const CELLS: Answer = Answer { number: 26 };
    // A 257th activation live.
    pub const ACTIVATIONS: Answer = Answer { number: 27 };
    // A channel that is not 1.
    pub const CHANNEL: Answer = Answer { number: 28 };
    // No instruction at the counter, or none that can be done.
    pub const NO_INSTRUCTION: Answer = Answer { number: 29 };
    // A store to a name formal whose actual is no variable.
    pub const NO_VARIABLE: Answer = Answer { number: 30 };
    // More sets of input than a report takes.
    pub const TOO_MANY_SETS: Answer = Answer { number: 31 };

    // Kept: what may not change, docs/PROMISES.md holds a function for each number beside its constant.
    pub fn accepted() -> Answer
        ensures { result ≡ answer accepted }
    {
        Answer::ACCEPTED
    }

    pub fn ended() -> Answer
        ensures { result ≡ answer ended }
    {
        Answer::ENDED
    }

    pub fn short() -> Answer
        ensures { result ≡ answer short }
    {
        Answer::SHORT
    }

    pub fn long() -> Answer
        ensures { result ≡ answer long }
    {
        Answer::LONG
    }

    pub fn no_symbol() -> Answer
        ensures { result ≡ answer no_symbol }
    {
        Answer::NO_SYMBOL
    }

    pub fn too_large() -> Answer
        ensures { result ≡ answer too_large }
    {
        Answer::TOO_LARGE
    }

    pub fn grammar() -> Answer
        ensures { result ≡ answer grammar }
    {
        Answer::GRAMMAR
    }

    pub fn depth() -> Answer
        ensures { result ≡ answer depth }
    {
        Answer::DEPTH
    }

    pub fn twice() -> Answer
        ensures { result ≡ answer twice }
    {
        Answer::TWICE
    }

    pub fn undeclared() -> Answer
        ensures { result ≡ answer undeclared }
    {
        Answer::UNDECLARED
    }

    pub fn heading() -> Answer
        ensures { result ≡ answer heading }
    {
        Answer::HEADING
    }

    pub fn types() -> Answer
        ensures { result ≡ answer types }
    {
        Answer::TYPES
    }

    pub fn limit() -> Answer
        ensures { result ≡ answer limit }
    {
        Answer::LIMIT
    }

    pub fn range() -> Answer
        ensures { result ≡ answer range }
    {
        Answer::RANGE
    }

    pub fn zero_divisor() -> Answer
        ensures { result ≡ answer zero_divisor }
    {
        Answer::ZERO_DIVISOR
    }

    pub fn unassigned() -> Answer
        ensures { result ≡ answer unassigned }
    {
        Answer::UNASSIGNED
    }

    pub fn input_ended() -> Answer
        ensures { result ≡ answer input_ended }
    {
        Answer::INPUT_ENDED
    }

    pub fn output_full() -> Answer
        ensures { result ≡ answer output_full }
    {
        Answer::OUTPUT_FULL
    }

    pub fn cells() -> Answer
        ensures { result ≡ answer cells }
    {
        Answer::CELLS
    }

    pub fn activations() -> Answer
        ensures { result ≡ answer activations }
    {
        Answer::ACTIVATIONS
    }

    pub fn channel() -> Answer
        ensures { result ≡ answer channel }
    {
        Answer::CHANNEL
    }

    pub fn no_instruction() -> Answer
        ensures { result ≡ answer no_instruction }
    {
        Answer::NO_INSTRUCTION
    }

    pub fn no_variable() -> Answer
        ensures { result ≡ answer no_variable }
    {
        Answer::NO_VARIABLE
    }

    pub fn too_many_sets() -> Answer
        ensures { result ≡ answer too_many_sets }
    {
        Answer::TOO_MANY_SETS
    }
}

impl Environment {
    // The absolute value.
    pub const IABS: Environment = Environment { number: 0 };
    // The greatest whole number.
    pub const MAXINT: Environment = Environment { number: 1 };
    // Takes an input number.
    pub const ININTEGER: Environment = Environment { number: 2 };
    // Writes an output number.
    pub const OUTINTEGER: Environment = Environment { number: 3 };
    // Writes an output real.
    pub const OUTREAL: Environment = Environment { number: 4 };

    // Kept: what may not change, docs/PROMISES.md holds a function for each number beside its constant.
    pub fn iabs() -> Environment
        ensures { result ≡ environment iabs }
    {
        Environment::IABS
    }

    pub fn maxint() -> Environment
        ensures { result ≡ environment maxint }
    {
        Environment::MAXINT
    }

    pub fn ininteger() -> Environment
        ensures { result ≡ environment ininteger }
    {
        Environment::ININTEGER
    }

    pub fn outinteger() -> Environment
        ensures { result ≡ environment outinteger }
    {
        Environment::OUTINTEGER
    }

    pub fn outreal() -> Environment
        ensures { result ≡ environment outreal }
    {
        Environment::OUTREAL
    }
}

// A refusal, or a run's fault: its number and its place in the source.
#[derive(Clone, Copy, PartialEq, Eq, Debug)]
pub struct Refusal {
    pub answer: Answer,
    pub place: Place,
}

impl Refusal {
    pub fn new(a: Answer, at: usize) -> Refusal
        ensures { result ≡ refusal a.number at }
    {
        Refusal {
            answer: a,
            place: Place { at },
        }
    }
}

// What reading or translating a source answers.
// Kept: no plainer, an acceptance has a number and a place as a refusal has, and no method of ours could give these of a `Result`.
#[derive(Clone, Copy, PartialEq, Eq, Debug)]
pub enum Verdict {
    Accepted,
    Refused(Refusal),
}

impl Verdict {
    pub fn answer(self) -> Answer
        ensures { result.number ≡ number_of self }
    {
        match self {
            Verdict::Accepted => Answer::ACCEPTED,
            Verdict::Refused(r) => r.answer,
        }
    }

    pub fn place(self) -> usize
        ensures { result ≡ place_of self }
    {
        match self {
            Verdict::Accepted => 0,
            Verdict::Refused(r) => r.place.at,
        }
    }
}

// How a run stopped: at its end, at its limit, with a fault of the program at a place in the source, or at words that
// are no instruction, at their counter.
// Kept: no plainer, a run stops in four ways, of which two have no place in the source.
#[derive(Clone, Copy, PartialEq, Eq, Debug)]
pub enum Stop {
    Ended,
    Limit,
    Fault(Refusal),
    Wrong(Address),
}

impl Stop {
    pub fn answer(self) -> Answer
        ensures { result.number ≡ stop_number self }
    {
        match self {
            Stop::Ended => Answer::ENDED,
            Stop::Limit => Answer::LIMIT,
            Stop::Fault(r) => r.answer,
            Stop::Wrong(_) => Answer::NO_INSTRUCTION,
        }
    }

    pub fn place(self) -> usize
        ensures { result ≡ stop_place self }
    {
        match self {
            Stop::Ended | Stop::Limit => 0,
            Stop::Fault(r) => r.place.at,
            Stop::Wrong(a) => a.at as usize,
        }
    }
}
