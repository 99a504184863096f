// The translation, instruction by instruction, in the words of docs/MACHINE.md.
ghost use Rattle.std.specs.Prelude.{◌≡◌};

use crate::system::System;
use crate::text::{say, say_blanks, say_nth, say_number, say_spot};
use machine::operands::{FOUND_OFFSET, TEN_BITS, high, low, mid};
use machine::{bounds, codes};

// The operations' names, a line a number from `codes::NONE` on.
fn say_operation(system: &System, operation: u32) {
    if operation < codes::BEHIND {
        say_nth(
            system,
            b"no operation
END
JUMP
ENTER
LEAVE
CALL needed
CALL
RETURN
GO
NEXT
UNLESS
TEST
CONST
LOAD
STORE
ASSIGN
RESULT
DROP
IN
OUT
HOLD
SUM
MINUS
NOT
IABS
+
-
*
%
<
<=
=
>=
>
#
and
or
impl
equiv
NAME
WORK
SEEK
PASS
LEND
REFUSE
CHANNEL
/
OUTREAL
LOGICAL
HIGH
AS",
            wide(operation),
        );
    } else {
        say(system, b"no operation");
    }
}

// A name of a part, and the part.
fn say_part(system: &System, name: &[u8], n: usize) {
    say(system, name);
    say_number(system, n as u64);
}

// A variable: activations out, and the offset from the first cell there; or the cell found.
fn say_variable(system: &System, v: u32) {
    if mid(wide(v)) == FOUND_OFFSET {
        say(system, b" cell found");
        return;
    }
    say_part(system, b" cell ", mid(wide(v)));
    say_part(system, b", levels out ", high(wide(v)));
}

// The number of a CONST, in two's complement.
fn say_constant(system: &System, v: u32) {
    if v < 2147483648 {
        say_part(system, b" ", wide(v));
    } else {
        say_part(system, b" -", 4294967296 - wide(v));
    }
}

// A type, by its number.
fn say_form(system: &System, v: u32) {
    say_nth(
        system,
        b" integer\n real\n Boolean\n no type",
        low(wide(v)).min(3),
    );
}

// A logical value, by its number.
fn say_logical(system: &System, v: u32) {
    say_nth(system, b" false\n true\n no value", low(wide(v)).min(2));
}

// How many cells of each type a block has.
fn say_counts(system: &System, v: u32) {
    say_part(system, b" integers ", wide(v) % TEN_BITS);
    say_part(system, b", reals ", wide(v) / TEN_BITS % TEN_BITS);
    say_part(system, b", Booleans ", wide(v) / TEN_BITS / TEN_BITS);
}

// The operands of control instructions.
fn say_route(system: &System, operation: u32, v: u32) {
    match operation {
        codes::JUMP | codes::UNLESS => say_part(system, b" to ", low(wide(v))),
        codes::ENTER => say_counts(system, v),
        codes::LEAVE => say_part(system, b" cells ", mid(wide(v))),
        codes::CALL_NEEDED | codes::CALL => {
            say_part(system, b" to ", low(wide(v)));
            say_part(system, b", levels out ", high(wide(v)));
            say_part(system, b", cells ", mid(wide(v)));
        }
        codes::GO => {
            say_part(system, b" to ", low(wide(v)));
            say_part(system, b", back to ", mid(wide(v)));
            say_part(system, b", nesting ", high(wide(v)));
        }
        codes::NEXT => say_part(system, b" nesting ", high(wide(v))),
        codes::NAME => say_part(system, b" behind it ", low(wide(v))),
        codes::WORK | codes::SEEK | codes::PASS => {
            say_part(system, b" cell ", mid(wide(v)));
            say_part(system, b", levels out ", high(wide(v)));
        }
        _ => {}
    }
}

// The operands. A RETURN without a place has none: with one it ends the store part of an actual, and has the formal's type.
fn say_operands(system: &System, operation: u32, place: usize, v: u32) {
    match operation {
        codes::RETURN => {
            if 0 < place {
                say_form(system, v);
            }
        }
        codes::RESULT | codes::AS => say_form(system, v),
        codes::LOGICAL => say_logical(system, v),
        codes::HIGH => say_part(system, b" ", wide(v)),
        codes::TEST => {
            say_variable(system, v);
            say_part(system, b", to ", low(wide(v)));
        }
        codes::CONST => say_constant(system, v),
        codes::LOAD | codes::STORE | codes::ASSIGN | codes::IN | codes::SUM => say_variable(
            system, v,
        ),
        codes::LEND => say_variable(system, v),
        _ => say_route(system, operation, v),
    }
}

// Whether an instruction carries a place of the source. Nothing but the program's 'begin' is at place 0.
fn placed(operation: u32, place: usize) -> bool {
    match operation {
        codes::RETURN | codes::AS => 0 < place,
        codes::ENTER | codes::CALL_NEEDED | codes::CALL | codes::TEST => true,
        codes::CONST..=codes::RESULT | codes::IN | codes::OUT => true,
        codes::SUM..=codes::PASS => true,
        codes::CHANNEL..=codes::LOGICAL => true,
        _ => false,
    }
}

// So many blanks that what follows numbers of four digits is in one column.
fn say_indent(system: &System, address: usize) {
    if address < 10 {
        say_blanks(system, 3);
    } else if address < 100 {
        say_blanks(system, 2);
    } else if address < 1000 {
        say_blanks(system, 1);
    }
}

fn wide(n: u32) -> usize
    ensures { result ≡ n }
{
    n as usize
}

fn show_instruction(system: &System, source: &[u8], address: usize, first: u32, second: u32) {
    let operation = first % codes::BASE;
    let place = wide(first / codes::BASE);
    say_indent(system, address);
    say_number(system, address as u64);
    say(system, b"  ");
    say_operation(system, operation);
    say_operands(system, operation, place, second);
    if placed(operation, place) {
        say(system, b"  at ");
        say_spot(system, source, place);
    }
    say(system, b"\n");
}

// The instructions, up to the first word that is none.
pub fn show_code(system: &System, source: &[u8], code: &[u32]) {
    for k in 0..bounds::WORDS / 2 {
        let at = 2 * k;
        if code.len() <= at + 1 {
            return;
        }
        if code[at] % codes::BASE == codes::NONE {
            return;
        }
        show_instruction(system, source, k, code[at], code[at + 1]);
    }
}
