// The symbols, of which the kinds are lent.
ghost use Rattle.std.specs.Prelude.{◌≡◌, MatchResult, take};
ghost use Rattle.symbols.specs.Symbols.{kind};
ghost use Rattle.symbols.specs.declared.Symbol.TheVariants.{Colon};
ghost use Rattle.grammar.specs.model.Text.{text, kind_at};
ghost use Rattle.syntax.specs.model.Says.{Stands, Lacks};

use crate::faults::wrong;
use grammar::Fault;
use symbols::Symbol;
use symbols::kinds::store;

// The symbol at i, a number's value aside; past the end `:`, which no program has.
pub fn peek(kinds: &[u8], i: usize) -> Symbol
    ensures { kind result ≡ kind_at (text kinds.now) i }
{
    if i < kinds.len() {
        symbols::kinds::decode(kinds[i], 0)
    } else {
        Symbol::Colon
    }
}

// Where a symbol of this kind must stand at i: what stands behind it.
pub fn expect(kinds: &[u8], i: usize, wanted: u8) -> Result<usize, Fault>
    requires { wanted ≡ kind Colon → ⊥ }
    ensures { MatchResult result (λ j. Stands (text kinds.now) i wanted j) (λ f. Lacks (text kinds.now) i wanted f) }
{
    let found = store(peek(kinds, i));
    if found.kind == wanted {
        Ok(i + 1)
    } else {
        Err(wrong(i))
    }
}

// The first symbols of those that are lent.
pub fn first(kinds: &[u8], count: usize) -> &[u8]
    ensures { result.now ≡ take count kinds.now }
{
    &kinds[..count.min(kinds.len())]
}
