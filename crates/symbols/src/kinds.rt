// A symbol is stored as its kind and its value, in lent arrays of numbers.
ghost use Rattle.std.specs.Prelude.{◌≡◌};
ghost use Rattle.symbols.specs.Symbols.{kind as kind_of, value_of};
ghost use Rattle.symbols.specs.model.Kinds.{stored_of, symbol_of, unpacked};

use crate::Symbol;

// The kinds, by name.
// Kept: what may not change, `Filled` and the clauses of every reader above hold kinds as numbers of a lent array.
pub const BEGIN: u8 = 0;

pub const END: u8 = 1;

pub const IF: u8 = 2;

pub const THEN: u8 = 3;

pub const ELSE: u8 = 4;

pub const FOR: u8 = 5;

pub const DO: u8 = 6;

pub const STEP: u8 = 7;

pub const UNTIL: u8 = 8;

pub const WHILE: u8 = 9;

pub const COMMENT: u8 = 10;

pub const INTEGER: u8 = 11;

pub const BOOLEAN: u8 = 12;

pub const PROCEDURE: u8 = 13;

pub const VALUE: u8 = 14;

pub const TRUE: u8 = 15;

pub const FALSE: u8 = 16;

pub const AND: u8 = 17;

pub const OR: u8 = 18;

pub const NOT: u8 = 19;

pub const IMPL: u8 = 20;

pub const EQUIV: u8 = 21;

pub const PLUS: u8 = 22;

pub const MINUS: u8 = 23;

pub const TIMES: u8 = 24;

pub const DIVIDE: u8 = 25;

pub const LESS: u8 = 26;

pub const LESS_EQUAL: u8 = 27;

pub const EQUAL: u8 = 28;

pub const GREATER_EQUAL: u8 = 29;

pub const GREATER: u8 = 30;

pub const NOT_EQUAL: u8 = 31;

pub const COMMA: u8 = 32;

pub const COLON: u8 = 33;

pub const BECOMES: u8 = 34;

pub const SEMICOLON: u8 = 35;

pub const OPEN: u8 = 36;

pub const CLOSE: u8 = 37;

pub const NAME: u8 = 38;

pub const NUMBER: u8 = 39;

pub const REAL: u8 = 40;

pub const SLASH: u8 = 41;

pub const DECIMAL: u8 = 42;

#[derive(Clone, Copy, PartialEq, Eq, Debug)]
pub struct Stored {
    pub kind: u8,
    pub value: u64,
}

// A symbol's kind.
fn kind(s: Symbol) -> u8
    ensures { result ≡ kind_of s }
{
    match s {
        Symbol::Begin => BEGIN,
        Symbol::End => END,
        Symbol::If => IF,
        Symbol::Then => THEN,
        Symbol::Else => ELSE,
        Symbol::For => FOR,
        Symbol::Do => DO,
        Symbol::Step => STEP,
        Symbol::Until => UNTIL,
        Symbol::While => WHILE,
        Symbol::Comment => COMMENT,
        Symbol::Integer => INTEGER,
        Symbol::Boolean => BOOLEAN,
        Symbol::Procedure => PROCEDURE,
        Symbol::Value => VALUE,
        Symbol::True => TRUE,
        Symbol::False => FALSE,
        Symbol::And => AND,
        Symbol::Or => OR,
        Symbol::Not => NOT,
        Symbol::Impl => IMPL,
        Symbol::Equiv => EQUIV,
        Symbol::Plus => PLUS,
        Symbol::Minus => MINUS,
        Symbol::Times => TIMES,
        Symbol::Divide => DIVIDE,
        Symbol::Less => LESS,
        Symbol::LessEqual => LESS_EQUAL,
        Symbol::Equal => EQUAL,
        Symbol::GreaterEqual => GREATER_EQUAL,
        Symbol::Greater => GREATER,
        Symbol::NotEqual => NOT_EQUAL,
        Symbol::Comma => COMMA,
        Symbol::Colon => COLON,
        Symbol::Becomes => BECOMES,
        Symbol::Semicolon => SEMICOLON,
        Symbol::Open => OPEN,
        Symbol::Close => CLOSE,
        Symbol::Name => NAME,
        Symbol::Number(_) => NUMBER,
        Symbol::Real => REAL,
        Symbol::Slash => SLASH,
        Symbol::Decimal(_) => DECIMAL,
    }
}

// A number's value, or the word of one with a point; 0 for every other symbol.
fn value(s: Symbol) -> u64
    ensures { result ≡ value_of s }
{
    match s {
        Symbol::Number(v) | Symbol::Decimal(v) => v,
        _ => 0,
    }
}

pub fn store(s: Symbol) -> Stored
    ensures { result ≡ stored_of s }
{
    Stored {
        kind: kind(s),
        value: value(s),
    }
}

// The symbol of a kind and a value; a number that is no kind is read as `:`, which no program has.
#[tactic(auto, unfolding(crate::specs::model::Kinds::symbol_of))]
pub fn decode(k: u8, v: u64) -> Symbol
    ensures { result ≡ symbol_of k v }
{
    match k {
        BEGIN => Symbol::Begin,
        END => Symbol::End,
        IF => Symbol::If,
        THEN => Symbol::Then,
        ELSE => Symbol::Else,
        FOR => Symbol::For,
        DO => Symbol::Do,
        STEP => Symbol::Step,
        UNTIL => Symbol::Until,
        WHILE => Symbol::While,
        COMMENT => Symbol::Comment,
        INTEGER => Symbol::Integer,
        BOOLEAN => Symbol::Boolean,
        PROCEDURE => Symbol::Procedure,
        VALUE => Symbol::Value,
        TRUE => Symbol::True,
        FALSE => Symbol::False,
        AND => Symbol::And,
        OR => Symbol::Or,
        NOT => Symbol::Not,
        IMPL => Symbol::Impl,
        EQUIV => Symbol::Equiv,
        PLUS => Symbol::Plus,
        MINUS => Symbol::Minus,
        TIMES => Symbol::Times,
        DIVIDE => Symbol::Divide,
        LESS => Symbol::Less,
        LESS_EQUAL => Symbol::LessEqual,
        EQUAL => Symbol::Equal,
        GREATER_EQUAL => Symbol::GreaterEqual,
        GREATER => Symbol::Greater,
        NOT_EQUAL => Symbol::NotEqual,
        COMMA => Symbol::Comma,
        COLON => Symbol::Colon,
        BECOMES => Symbol::Becomes,
        SEMICOLON => Symbol::Semicolon,
        OPEN => Symbol::Open,
        CLOSE => Symbol::Close,
        NAME => Symbol::Name,
        NUMBER => Symbol::Number(v),
        REAL => Symbol::Real,
        SLASH => Symbol::Slash,
        DECIMAL => Symbol::Decimal(v),
        _ => Symbol::Colon,
    }
}

// A number with a point: its digits as one whole number, and how many of them stand behind the point.
#[derive(Clone, Copy, PartialEq, Eq, Debug)]
pub struct Unpacked {
    pub digits: u64,
    pub behind: u32,
}

#[tactic(auto, unfolding(crate::specs::model::Kinds::unpacked))]
pub fn unpack(w: u64) -> Unpacked
    ensures { result ≡ unpacked w }
{
    Unpacked {
        digits: w / 16,
        behind: (w % 16) as u32,
    }
}
