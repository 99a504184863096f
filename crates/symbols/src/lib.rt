// Paper 01, "Bytes to symbols": any bytes in, a list of symbols or a numbered refusal with its place out.
#![tactic(auto)]

use answers::{Answer, Refusal};

pub mod text; // sorts of bytes, and runs of them
pub mod words; // delimiter words
pub mod lexemes; // what begins at a byte
pub mod notes; // where a note can open, and where a remark runs
pub mod kinds; // how a symbol is stored
pub mod scanning; // the symbols of a source
pub mod names; // when two names are the same

// What a symbol is. A name's letters stay in the source, at the symbol's place. A number with a point has its digits and how many of them
// stand behind the point as one word.
#[derive(Clone, Copy, PartialEq, Eq, Debug)]
pub enum Symbol {
    Begin,
    End,
    If,
    Then,
    Else,
    For,
    Do,
    Step,
    Until,
    While,
    Comment,
    Integer,
    Boolean,
    Procedure,
    Value,
    True,
    False,
    And,
    Or,
    Not,
    Impl,
    Equiv,
    Plus,
    Minus,
    Times,
    Divide,
    Less,
    LessEqual,
    Equal,
    GreaterEqual,
    Greater,
    NotEqual,
    Comma,
    Colon,
    Becomes,
    Semicolon,
    Open,
    Close,
    Name,
    Number(u64),
    Real,
    Slash,
    Decimal(u64),
}

// What begins at a byte: a symbol, or a name or number over its limit, with how many bytes belong to it behind its first;
// or no symbol.
// Kept: no plainer, three ways: what is too large is passed over in a remark, and what is nothing is refused there too.
#[derive(Clone, Copy, PartialEq, Eq, Debug)]
pub enum Lexeme {
    Is(Symbol, usize),
    Large(usize),
    Nothing,
}

// Where a byte stands: next after `;`, 'begin' or a note; elsewhere; or after 'end'.
#[derive(Clone, Copy, PartialEq, Eq, Debug)]
pub enum Context {
    Opens,
    Plain,
    Remark,
}

// What is done at a byte: nothing is kept, or a symbol is, with the context behind it and how many bytes more are passed
// over; or a refusal.
// Kept: no plainer, three ways at a byte, of which two go on.
#[derive(Clone, Copy, PartialEq, Eq, Debug)]
pub enum Turn {
    Pass(Context, usize),
    Keep(Symbol, Context, usize),
    Refuse(Answer),
}

// Where the source is read on.
#[derive(Clone, Copy, PartialEq, Eq, Debug)]
pub struct Cursor {
    pub at: usize,
    pub context: Context,
}

// What reading at a cursor answers: the symbol there with the next cursor; a blank, a note or a part of a remark passed
// over; a refusal with its number and place; or the source's end.
// Kept: no plainer, four ways, of which two go on.
#[derive(Clone, Copy, PartialEq, Eq, Debug)]
pub enum Step {
    Read(Symbol, Cursor),
    Passed(Cursor),
    Refused(Refusal),
    End,
}
