// The house spelling: a word in apostrophes, a sign, a name or number without blanks.
ghost use Rattle.std.specs.Prelude.{◌+◌, ◌*◌, ◌<◌, ◌≤◌, length};
ghost use Rattle.clean.specs.model.Bytes.{Puts, most, spelling_at, word_at};

use crate::bytes::{decimal, letters, word};
use answers::Place;
use symbols::kinds;

// The words of statements and declarations.
fn statement_word(page: &mut [u8], at: usize, kind: u8) -> usize
    requires { (at + 16 ≤ most) × (kind < 14) }
    ensures { Puts page.old page.new at result (word_at kind) }
{
    match kind {
        kinds::BEGIN => word(page, at, b"'begin'"),
        kinds::END => word(page, at, b"'end'"),
        kinds::IF => word(page, at, b"'if'"),
        kinds::THEN => word(page, at, b"'then'"),
        kinds::ELSE => word(page, at, b"'else'"),
        kinds::FOR => word(page, at, b"'for'"),
        kinds::DO => word(page, at, b"'do'"),
        kinds::STEP => word(page, at, b"'step'"),
        kinds::UNTIL => word(page, at, b"'until'"),
        kinds::WHILE => word(page, at, b"'while'"),
        kinds::COMMENT => word(page, at, b"'comment'"),
        kinds::INTEGER => word(page, at, b"'integer'"),
        kinds::BOOLEAN => word(page, at, b"'Boolean'"),
        _ => word(page, at, b"'procedure'"),
    }
}

// 'value', the logical values and operators.
fn logic_word(page: &mut [u8], at: usize, kind: u8) -> usize
    requires { (at + 16 ≤ most) × (14 ≤ kind) × (kind < 22) }
    ensures { Puts page.old page.new at result (word_at kind) }
{
    match kind {
        kinds::VALUE => word(page, at, b"'value'"),
        kinds::TRUE => word(page, at, b"'true'"),
        kinds::FALSE => word(page, at, b"'false'"),
        kinds::AND => word(page, at, b"'and'"),
        kinds::OR => word(page, at, b"'or'"),
        kinds::NOT => word(page, at, b"'not'"),
        kinds::IMPL => word(page, at, b"'impl'"),
        _ => word(page, at, b"'equiv'"),
    }
}

// The signs.
fn sign(page: &mut [u8], at: usize, kind: u8) -> usize
    requires { (at + 16 ≤ most) × (22 ≤ kind) × (kind < 38) }
    ensures { Puts page.old page.new at result (word_at kind) }
{
    match kind {
        kinds::PLUS => word(page, at, b"+"),
        kinds::MINUS => word(page, at, b"-"),
        kinds::TIMES => word(page, at, b"*"),
        kinds::DIVIDE => word(page, at, b"%"),
        kinds::LESS => word(page, at, b"<"),
        kinds::LESS_EQUAL => word(page, at, b"<="),
        kinds::EQUAL => word(page, at, b"="),
        kinds::GREATER_EQUAL => word(page, at, b">="),
        kinds::GREATER => word(page, at, b">"),
        kinds::NOT_EQUAL => word(page, at, b"#"),
        kinds::COMMA => word(page, at, b","),
        kinds::COLON => word(page, at, b":"),
        kinds::BECOMES => word(page, at, b":="),
        kinds::SEMICOLON => word(page, at, b";"),
        kinds::OPEN => word(page, at, b"("),
        _ => word(page, at, b")"),
    }
}

// 'real' and `/`; a number with a point.
fn of_reals(page: &mut [u8], at: usize, source: &[u8], kind: u8, place: Place) -> usize
    requires { (at + 16 + 2 * length source.now < most) × (40 ≤ kind) × (kind < 43) }
    ensures { Puts page.old page.new at result (spelling_at source.now kind place.at) }
{
    match kind {
        kinds::REAL => word(page, at, b"'real'"),
        kinds::SLASH => word(page, at, b"/"),
        _ => decimal(page, at, source, place.at),
    }
}

// The symbol of a kind that stands at a place of the source.
pub fn spelled(page: &mut [u8], at: usize, source: &[u8], kind: u8, place: Place) -> usize
    requires { (at + 16 + 2 * length source.now < most) × (kind < 43) }
    ensures { Puts page.old page.new at result (spelling_at source.now kind place.at) }
{
    if kind < 14 {
        return statement_word(page, at, kind);
    }
    if kind < 22 {
        return logic_word(page, at, kind);
    }
    if kind < 38 {
        return sign(page, at, kind);
    }
    if kind < 40 {
        return letters(page, at, source, place.at, kind == kinds::NAME);
    }
    of_reals(page, at, source, kind, place)
}
