// The scopes that are open, innermost last; they are numbered from 1 as they are opened.
ghost use Rattle.std.specs.Prelude.{◌≡◌, List, ◌∷◌, ℕ, ◌+◌, ◌<◌, ◌≤◌, length};
ghost use Rattle.names.specs.model.Rows.{here_in, outward};
ghost use Rattle.names.specs.model.Arrays.{see_open};

use crate::Open;

// The innermost one; 0 where none is open.
pub fn here(o: Open, stack: &[u16; 8192]) -> u16
    requires { o.depth ≤ 8192 }
    ensures { result ≡ here_in (see_open o stack.now) }
{
    stack[..o.depth].last().copied().unwrap_or(0)
}

// A scope is opened.
pub fn enter(o: Open, stack: &mut [u16; 8192]) -> Open
    requires { (o.depth < 8192) × (o.scopes < 8192) }
    ensures stack_after { see_open result stack.new ≡ (o.scopes + 1) ∷ see_open o stack.old }
    ensures scopes_value { (result.scopes ≡ o.scopes + 1) × (result.depth ≡ o.depth + 1) }
{
    let scopes = o.scopes + 1;
    stack[o.depth] = scopes;
    Open {
        depth: o.depth + 1,
        scopes,
    }
}

// The innermost one is left.
pub fn leave(o: Open) -> Open
    ensures by_index { (stack : List ℕ) → see_open result stack ≡ outward (see_open o stack) }
    ensures scopes_value { (result.scopes ≡ o.scopes) × (result.depth ≤ o.depth) }
{
    Open {
        depth: o.depth.saturating_sub(1),
        ..o
    }
}
