// The begins counted: each scope with its level, its place and what it declares. A scope is a block or a procedure's
// body, as docs/TABLE.md numbers them; a compound statement is none.
ghost use Rattle.std.specs.Prelude.{◌≡◌, cond, ◌<◌, ◌≤◌, ◌+◌, get_or};
ghost use Rattle.showing.specs.Pages as Pages;
ghost use Rattle.showing.specs.Pages.{level_behind};

use crate::system::System;
use crate::text::{say, say_blanks, say_name, say_number, say_spot};
use grammar::nodes;
use table::sections::{sections_of, word};

// The kind of the node whose words begin at `at`.
fn kind_at(table: &[u16], at: usize) -> u16
    ensures { result ≡ get_or table.now at 0 }
{
    table.get(at).copied().unwrap_or(0)
}

#[tactic(auto, unfolding(crate::specs::Pages::opens))]
fn opens(kind: u16) -> bool
    ensures { result ≡ Pages.opens kind }
{
    matches!(kind, nodes::BLOCK | nodes::PROCEDURE)
}

#[tactic(auto, unfolding(crate::specs::Pages::closes))]
fn closes(kind: u16) -> bool
    ensures { result ≡ Pages.closes kind }
{
    matches!(kind, nodes::BLOCK_END | nodes::PROCEDURE_END)
}

fn say_type(system: &System, number: usize) {
    match number {
        1 => say(system, b"integer "),
        2 => say(system, b"Boolean "),
        3 => say(system, b"real "),
        _ => {}
    }
}

// The declaration whose words begin at `at`. A formal's last word has its type, and 4 more where it is called by name.
fn show_declaration(system: &System, source: &[u8], table: &[u16], at: usize)
    requires { at < 1048576 }
{
    let place = word(table, at);
    let said = word(table, at + 3);
    say_type(system, said % 4);
    match word(table, at + 1) {
        1 => say(system, b"variable "),
        2 => say(system, b"procedure "),
        _ => {
            if said < 4 {
                say(system, b"formal by value ");
            } else {
                say(system, b"formal by name ");
            }
        }
    }
    say_name(system, source, place);
    say(system, b" at ");
    say_spot(system, source, place);
    say(system, b"\n");
}

// What the scope with a number declares.
fn show_declared(system: &System, source: &[u8], table: &[u16], scope: usize, level: usize)
    requires { level < 65536 }
{
    let s = sections_of(table);
    let from = s.declarations + 1;
    let n = word(table, s.declarations);
    for k in 0..n {
        let at = from + 4 * k;
        if word(table, at + 2) == scope {
            say_blanks(system, 2 * level);
            show_declaration(system, source, table, at);
        }
    }
}

// The scope that a node opens.
fn show_scope(
    system: &System,
    source: &[u8],
    table: &[u16],
    scope: usize,
    node: usize,
    level: usize,
)
    requires { (node < 1048576) × (0 < level) × (level < 65536) }
{
    let place = word(table, node + 1);
    say_blanks(system, 2 * level - 2);
    say(system, b"level ");
    say_number(system, level as u64);
    if kind_at(table, node) == nodes::BLOCK {
        say(system, b", block at ");
    } else {
        say(system, b", body of ");
        say_name(system, source, place);
        say(system, b" at ");
    }
    say_spot(system, source, place);
    say(system, b"\n");
    show_declared(system, source, table, scope, level);
}

// 1 for a node that opens a scope.
fn opened(kind: u16) -> usize
    ensures value { result ≡ cond (Pages.opens kind) 1 0 }
    ensures upper_bound { result ≤ 1 }
{
    usize::from(opens(kind))
}

// The level behind a node.
#[tactic(auto, unfolding(crate::specs::Pages::level_behind))]
fn level_behind(kind: u16, level: usize) -> usize
    requires { level < 65536 }
    ensures value { result ≡ level_behind kind level }
    ensures upper_bound { result ≤ level + 1 }
{
    if closes(kind) {
        level.saturating_sub(1)
    } else {
        level + opened(kind)
    }
}

pub fn show_levels(system: &System, source: &[u8], table: &[u16]) {
    let s = sections_of(table);
    let n = word(table, s.nodes);
    let mut level: usize = 0;
    let mut scope: usize = 0;
    for k in 0..n {
        let node = s.nodes + 1 + 4 * k;
        let kind = kind_at(table, node);
        scope += opened(kind);
        level = level_behind(kind, level);
        if opens(kind) && 0 < level {
            show_scope(system, source, table, scope, node, level);
        }
    }
}
