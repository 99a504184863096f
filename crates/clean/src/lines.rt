// Where lines begin, found from left to right by the kinds of the symbols. What is open is a block, kept as one more than the level of its 'begin'; or a
// procedure body, kept as 0.
ghost use Rattle.std.specs.Prelude.{◌≡◌, ◌+◌, ◌-◌, ◌<◌, ◌≤◌, length};
ghost use Rattle.clean.specs.model.Lines.{headed as headedOf};
ghost use Rattle.clean.specs.model.Pen.{Small, Low, first_of, parted_of, line_of, inward_of, passed_of, opened_of, closed_of, waits_of, top_of, stack_of, early_of, out_of, outside_of, Pushed, Headed, Separated, Late};

use symbols::kinds;

// Kept: no plainer, both flags are facts of the place beside the numbers, and none says that another is there.
#[derive(Clone, Copy)]
pub struct State {
    pub level: usize, // of the statement or declaration that is written
    pub around: usize, // how many blocks and bodies are open
    pub waiting: usize, // how many conditional expressions wait for their 'else'
    pub heading: bool, // inside a procedure heading
    pub begins: bool, // a statement or declaration begins here
    pub lines: usize, // lines begun since the last symbol
    pub line: usize, // the level of the last of them
    pub before: u8, // the kinds of the last two symbols
    pub last: u8,
}

// The beginning of a page, as behind `(`.
pub fn first() -> State
    ensures { result ≡ first_of }
{
    State {
        level: 0,
        around: 0,
        waiting: 0,
        heading: false,
        begins: true,
        lines: 0,
        line: 0,
        before: kinds::OPEN,
        last: kinds::OPEN,
    }
}

// A line begins at a level.
fn line(mut s: State, level: usize) -> State
    requires { s.lines < 4096 }
    ensures { result ≡ line_of s level }
{
    s.lines += 1;
    s.line = level;
    s
}

// A statement or declaration begins, one level further in, on a line of its own.
fn inward(mut s: State) -> State
    requires { (s.level < 4096) × (s.lines < 4096) }
    ensures { result ≡ inward_of s }
{
    s.level += 1;
    s.begins = true;
    let level = s.level;
    line(s, level)
}

// One less, or 0.
fn less(n: usize) -> usize
    ensures { result ≡ n - 1 }
{
    n.saturating_sub(1)
}

// What was opened last; 0 where nothing is open.
fn top(held: &[usize], n: usize) -> usize
    requires { n ≤ length held.now }
    ensures { result ≡ top_of (stack_of n held.now) }
{
    if n == 0 {
        return 0;
    }
    held[n - 1]
}

// One thing more is open.
fn push(held: &mut [usize], n: usize, thing: usize)
    requires { n < length held.old }
    ensures { Pushed held.old held.new n thing }
{
    held[n] = thing;
}

// Behind what opens a block or a body.
fn opened(mut s: State) -> State
    requires { (s.level < 4096) × (s.lines < 4096) × (s.around < 4096) }
    ensures { result ≡ opened_of s }
{
    s.around += 1;
    inward(s)
}

// Behind 'end': at the level of its 'begin'.
fn closed(mut s: State, level: usize) -> State
    ensures { result ≡ closed_of s level }
{
    s.level = level;
    s.around = less(s.around);
    s
}

// The line that begins before a symbol: that of 'end', and of 'else' of a statement.
pub fn early(s: State, held: &[usize], kind: u8) -> State
    requires { Small s × (s.around ≤ length held.now) }
    ensures { result ≡ early_of s (stack_of s.around held.now) kind }
{
    if kind == kinds::END {
        return line(s, less(top(held, s.around)));
    }
    if kind == kinds::ELSE {
        if s.waiting == 0 {
            return line(s, less(s.level));
        }
    }
    s
}

// A symbol was written, and nothing begins behind it.
fn passed(mut s: State, kind: u8) -> State
    ensures { result ≡ passed_of s kind }
{
    s.before = s.last;
    s.last = kind;
    s.lines = 0;
    s.begins = false;
    s
}

// 'value', 'integer', 'Boolean' or 'real' goes on with a heading.
fn headed(kind: u8) -> bool
    ensures { result ≡ headedOf kind }
{
    matches!(
        kind,
        kinds::VALUE | kinds::INTEGER | kinds::BOOLEAN | kinds::REAL
    )
}

// Behind a `;` of a heading: the next part of it, or the body.
fn in_heading(mut s: State, held: &mut [usize], next: u8) -> State
    requires { Small s × (s.around < length held.old) }
    ensures { Headed held.old held.new s next result }
{
    if headed(next) {
        let level = s.level + 1;
        return line(s, level);
    }
    push(held, s.around, 0);
    s.heading = false;
    opened(s)
}

// A body that ends here is closed.
fn out(mut s: State, held: &[usize]) -> State
    requires { s.around ≤ length held.now }
    ensures { result ≡ out_of s (stack_of s.around held.now) }
{
    if top(held, s.around) == 0 {
        s.around = less(s.around);
        return s;
    }
    s
}

// Behind any other `;`: what comes next in the block around.
fn outside(s: State, held: &[usize]) -> State
    requires { Small s × (s.around ≤ length held.now) × Low 4096 (stack_of s.around held.now) }
    ensures { result ≡ outside_of s (stack_of s.around held.now) }
{
    let mut o = out(s, held);
    o.level = less(top(held, o.around));
    inward(o)
}

// Behind a `;`.
fn separated(s: State, held: &mut [usize], next: u8) -> State
    requires { Small s × (s.around < length held.old) × Low 4096 (stack_of s.around held.old) }
    ensures { Separated held.old held.new s next result }
{
    if s.heading {
        return in_heading(s, held, next);
    }
    outside(s, held)
}

// Behind 'if': that of an expression waits for its 'else'.
fn waits(mut s: State, begins: bool) -> State
    requires { Small s }
    ensures { result ≡ waits_of s begins }
{
    if begins {
        return s;
    }
    s.waiting += 1;
    s
}

// Behind 'then' and 'else'.
fn parted(mut s: State, kind: u8) -> State
    requires { Small s }
    ensures { result ≡ parted_of s kind }
{
    if s.waiting == 0 {
        if kind == kinds::THEN {
            return inward(s);
        }
        s.begins = true;
        let level = s.level;
        return line(s, level);
    }
    if kind == kinds::ELSE {
        s.waiting -= 1;
        return s;
    }
    s
}

// Behind a symbol, of which the next one is told.
pub fn late(s0: State, held: &mut [usize], kind: u8, next: u8) -> State
    requires { Small s0 × (s0.around < length held.old) × Low 4096 (stack_of s0.around held.old) }
    ensures { Late held.old held.new s0 kind next result }
{
    let mut s = passed(s0, kind);
    match kind {
        kinds::BEGIN => {
            push(held, s.around, s.level + 1);
            opened(s)
        }
        kinds::END => closed(s, less(top(held, s.around))),
        kinds::SEMICOLON => separated(s, held, next),
        kinds::IF => waits(s, s0.begins),
        kinds::THEN => parted(s, kind),
        kinds::ELSE => parted(s, kind),
        kinds::DO => inward(s),
        kinds::PROCEDURE => {
            s.heading = true;
            s
        }
        _ => s,
    }
}
