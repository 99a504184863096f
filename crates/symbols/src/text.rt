// Sorts of bytes, and runs of them.
ghost use Rattle.std.specs.Prelude.{◌≡◌, ◌+◌, length, drop, eqb};
ghost use Rattle.symbols.specs.Names.{blank, letter, digit, in_name, equal, folded};
ghost use Rattle.symbols.specs.Scan.{before, gap};

#[tactic(auto, unfolding(crate::specs::Names::blank))]
pub fn is_blank(b: u8) -> bool
    ensures { result ≡ blank b }
{
    matches!(b, b' ' | b'\t' | b'\r' | b'\n')
}

pub fn is_letter(b: u8) -> bool
    ensures { result ≡ letter b }
{
    b.is_ascii_alphabetic()
}

pub fn is_digit(b: u8) -> bool
    ensures { result ≡ digit b }
{
    b.is_ascii_digit()
}

// A letter or a digit.
pub fn is_name_byte(b: u8) -> bool
    ensures { result ≡ in_name b }
{
    is_letter(b) || is_digit(b)
}

// The first place from `from` on that has no blank.
pub fn blanks_end(source: &[u8], from: usize) -> usize
    ensures { result ≡ from + gap (drop from source.now) }
{
    let rest = &source[from.min(source.len())..];
    from + rest
        .iter()
        .position(|b| !is_blank(*b))
        .unwrap_or(rest.len())
}

// The place of the next byte q from `from` on, or the source's length where there is none.
pub fn find(source: &[u8], from: usize, q: u8) -> usize
    ensures { result ≡ from + length (before q (drop from source.now)) }
{
    let rest = &source[from.min(source.len())..];
    from + rest.iter().position(|b| *b == q).unwrap_or(rest.len())
}

// Two runs of bytes are equal.
pub fn same_bytes(a: &[u8], b: &[u8]) -> bool
    ensures { result ≡ equal a.now b.now }
{
    a == b
}

// A capital as its small letter; every other byte as it is.
pub fn fold(b: u8) -> u8
    ensures { result ≡ folded b }
{
    b.to_ascii_lowercase()
}

// Two bytes are the same but for letter case. Most that are compared are equal.
pub fn same_letter(a: u8, b: u8) -> bool
    ensures { result ≡ eqb (folded a) (folded b) }
{
    a == b || a.eq_ignore_ascii_case(&b)
}
