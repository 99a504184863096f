// When two symbols are the same name: each symbol gets an identity, and those with the same letters, case aside, get the same.
ghost use Rattle.std.specs.Prelude.{◌≡◌, ◌<◌, min, length};
ghost use Rattle.symbols.specs.Names.{letters_at};
ghost use Rattle.names.specs.model.Identity.{given_of, GivenIs, StandsFor, Standing, Identified};

use crate::rows::OUTSIDE;
use answers::{Environment, Ordinal, Place};
use symbols::names::{same_name, spells};

// What the environment gives the name at a place.
fn given(source: &[u8], place: Place) -> Option<Environment>
    ensures { GivenIs (given_of (letters_at source.now place.at)) result }
{
    if spells(source, place, b"iabs") {
        return Some(Environment::IABS);
    }
    if spells(source, place, b"maxint") {
        return Some(Environment::MAXINT);
    }
    if spells(source, place, b"ininteger") {
        return Some(Environment::ININTEGER);
    }
    if spells(source, place, b"outinteger") {
        return Some(Environment::OUTINTEGER);
    }
    if spells(source, place, b"outreal") {
        return Some(Environment::OUTREAL);
    }
    None
}

// The identity of a symbol, where those before it have theirs: that of the first one that is the same name.
fn identity(source: &[u8], places: &[usize; 2048], ids: &[u16], symbol: Ordinal) -> u16
    requires { (symbol.number < 2048) × (length ids.now ≡ 2048) × Standing source.now places.now ids.now symbol.number }
    ensures { StandsFor source.now places.now symbol.number result }
{
    let place = Place {
        at: places[symbol.number as usize],
    };
    if let Some(e) = given(source, place) {
        return OUTSIDE + e.number;
    }
    for j in 0..symbol.number {
        // Only the first of a name stands for itself; the place of another is not looked at.
        if ids[j as usize] == j
            && same_name(
                source,
                Place {
                    at: places[j as usize],
                },
                place,
            )
        {
            return j;
        }
    }
    symbol.number
}

// The identities of the first symbols.
pub fn identify(source: &[u8], places: &[usize; 2048], count: usize, ids: &mut [u16; 2048])
    ensures { Identified source.now places.now ids.new (min count 2048) }
{
    for i in 0..count.min(2048) {
        ids[i] = identity(source, places, ids, Ordinal { number: i as u16 });
    }
}
