// The last word of a row: a type, and of a formal how it is called.
ghost use Rattle.std.specs.Prelude.{◌≡◌, ◌+◌, ◌*◌, ◌<◌};
ghost use Rattle.names.specs.Modes.{packed, type_in, mode_in};

// How a formal is called.
// Kept: what may not change, `mode` holds it: of any word it gives a number, which may be neither of these.
pub const VALUE: u16 = 0;

pub const NAME: u16 = 1;

// A type below 4 and a mode as one word.
pub fn word(sort: u16, mode: u16) -> u16
    requires { (sort < 4) × (mode < 16384) }
    ensures { result ≡ packed sort mode }
{
    sort + 4 * mode
}

// The type of such a word.
pub fn sort(word: u16) -> u16
    ensures value { result ≡ type_in word }
    ensures upper_bound { result < 4 }
{
    word % 4
}

// Its mode.
pub fn mode(word: u16) -> u16
    ensures value { result ≡ mode_in word }
    ensures upper_bound { result < 16384 }
{
    word / 4
}
