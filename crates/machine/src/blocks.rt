// The cells of blocks and activations.
ghost use Rattle.std.specs.Prelude.{◌≡◌, List, ◌<◌, ◌+◌, ◌≤◌, ℤ};
ghost use Rattle.machine.specs.Data.{Link, in_all, open_block, close_block, leave as leaveOf};
ghost use Rattle.machine.specs.Instructions.{counted};
ghost use Rattle.machine.specs.model.Holding.{Own, left, Sound, SoundD, data_of, trace_of, seen_d, told, room_of, unassigned, unassigned_all, fate_of};

use crate::activations::KEPT;
use crate::cells::{cell_at, put_cell, room};
use crate::operands::TEN_BITS;
use crate::{Counts, Trouble};
use answers::Answer;
use reals::{Cell, Form};

// The k cells from cell c on become unassigned ones of the type.
fn unassign(store: &mut [i64], form: Form, c: usize, k: usize)
    requires { c + k ≤ room_of store.old }
    ensures { store.new ≡ unassigned form store.old c k }
{
    for i in 0..k {
        put_cell(store, c + i, Cell::Unset(form));
    }
}

// Those of each type, as many as the operand v says.
fn unassign_all(store: &mut [i64], c: usize, v: usize)
    requires { (c + in_all (counted v) ≤ room_of store.old) × (v < 4294967296) }
    ensures { store.new ≡ unassigned_all (counted v) store.old c }
{
    let wholes = v % TEN_BITS;
    let reals = v / TEN_BITS % TEN_BITS;
    unassign(store, Form::Wholes, c, wholes);
    unassign(store, Form::Reals, c + wholes, reals);
    unassign(
        store,
        Form::Truths,
        c + wholes + reals,
        v / TEN_BITS / TEN_BITS,
    );
}

// How many they are.
fn in_all(v: usize) -> usize
    requires { v < 4294967296 }
    ensures { result ≡ in_all (counted v) }
{
    v % TEN_BITS + v / TEN_BITS % TEN_BITS + v / TEN_BITS / TEN_BITS
}

// A block's cells.
pub fn open(mut n: Counts, store: &mut [i64], q: usize, v: usize) -> Result<Counts, Trouble>
    requires { Sound n store.old × (v < 4294967296) }
    ensures o_after { (a : Own) (i o : List ℤ) → seen_d result a store.new i o ≡ told (trace_of n o) (open_block q (counted v) (data_of n a store.old i o)) }
    ensures sound_d { SoundD n result store.new }
{
    let c = n.cells;
    let h = n.held;
    let k = in_all(v);
    if c + h + k > room(store) {
        return Err(Trouble::Fault(Answer::CELLS, q));
    }
    unassign_all(store, c, v);
    n.cells = c + k;
    Ok(n)
}

pub fn close(mut n: Counts, k: usize) -> Result<Counts, Trouble>
    ensures o_value { (a : Own) (s i o : List ℤ) → seen_d result a s i o ≡ told (trace_of n o) (close_block k (data_of n a s i o)) }
    ensures sound_d { (s : List ℤ) → Sound n s → SoundD n result s }
{
    let c = n.cells;
    if k > c {
        return Err(Trouble::Stray);
    }
    n.cells = c - k;
    Ok(n)
}

// An activation's cells, from b on, go; where its result is needed, that stays, for the call at q.
pub fn leave(mut n: Counts, store: &[i64], fate: u32, q: usize, b: usize) -> Result<Counts, Trouble>
    requires { Sound n store.now }
    ensures o_value { (x : Link) (a : Own) (i o : List ℤ) → seen_d result (left (fate_of fate) x a) store.now i o ≡ told (trace_of n o) (leaveOf (fate_of fate) x q b (data_of n a store.now i o)) }
    ensures sound_d { SoundD n result store.now }
{
    if fate == KEPT {
        if b >= n.cells {
            return Err(Trouble::Stray);
        }
        match cell_at(store, b) {
            Cell::Unset(_) => Err(Trouble::Fault(Answer::UNASSIGNED, q)),
            Cell::Named(_) => Err(Trouble::Stray),
            Cell::Holds(_) => {
                n.cells = b + 1;
                Ok(n)
            }
        }
    } else {
        if b > n.cells {
            return Err(Trouble::Stray);
        }
        n.cells = b;
        Ok(n)
    }
}
