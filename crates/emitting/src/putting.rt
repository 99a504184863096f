// An instruction, and what is open.
ghost use Rattle.std.specs.Prelude.{◌≡◌, List, ℕ, ◌+◌, ◌*◌, ◌≤◌, ◌<◌};
ghost use Rattle.emitting.specs.model.Emission.{Used, put, with_slot, top, pushed, popped, replaced, nameless};
ghost use Rattle.emitting.specs.model.Arrays.{things_of, seen, see, Alike};

use crate::{Thing, Writing, parts};
use answers::Place;

impl Writing {
    // An instruction: operation, place, operand.
    #[tactic(auto, unfolding(crate::specs::model::Emission::put))]
    pub(crate) fn put(mut self, code: &mut [u32], o: usize, place: Place, v: usize) -> Writing
        requires { (self.here.at < 1048576) × (o + 64 * place.at < 4294967296) × (v < 4294967296) }
        ensures en_after { (us : List Used) (op : List Thing) (ah en : List ℕ) → see result us op code.new ah en ≡ put o place.at v (see self us op code.old ah en) }
        ensures alike { Alike self result × (result.here.at ≡ self.here.at + 1) × (result.open ≡ self.open) }
    {
        let at = self.here.at as usize;
        parts::set_word(code, 2 * at, o + 64 * place.at);
        parts::set_word(code, 2 * at + 1, v);
        self.here.at += 1;
        self
    }

    // Something opens.
    #[tactic(auto, using(crate::proofs::Stacked::things_write), unfolding(crate::specs::model::Emission::pushed, crate::specs::model::Emission::with_open))]
    pub(crate) fn push(
        mut self,
        things: &mut [Thing; 8192],
        a: usize,
        b: usize,
        c: usize,
        d: usize,
    ) -> Writing
        requires { self.open < 8192 }
        ensures en_after { (us : List Used) (co ah en : List ℕ) → see result us things.new co ah en ≡ pushed a b c d (see self us things.old co ah en) }
        ensures alike { Alike self result × (result.here.at ≡ self.here.at) × (result.open ≡ self.open + 1) }
    {
        things[self.open] = Thing {
            first: a,
            second: b,
            third: c,
            fourth: d,
        };
        self.open += 1;
        self
    }

    // The newest one is closed.
    #[tactic(auto, using(crate::proofs::Stacked::things_below), unfolding(crate::specs::model::Emission::popped, crate::specs::model::Emission::with_open))]
    pub(crate) fn pop(mut self) -> Writing
        ensures en_value { (us : List Used) (op : List Thing) (co ah en : List ℕ) → see result us op co ah en ≡ popped (see self us op co ah en) }
        ensures alike { Alike self result × (result.here.at ≡ self.here.at) × (result.variable ≡ self.variable) × (result.open ≤ self.open) × (self.open ≤ 8192 → result.open < 8192) }
    {
        self.open = self.open.saturating_sub(1);
        self
    }

    // Another one in place of the newest.
    pub(crate) fn replace(
        self,
        things: &mut [Thing; 8192],
        a: usize,
        b: usize,
        c: usize,
        d: usize,
    ) -> Writing
        requires { self.open ≤ 8192 }
        ensures en_after { (us : List Used) (co ah en : List ℕ) → see result us things.new co ah en ≡ replaced a b c d (see self us things.old co ah en) }
        ensures alike { Alike self result × (result.here.at ≡ self.here.at) × (result.open ≤ 8192) }
    {
        self.pop().push(things, a, b, c, d)
    }

    // The newest one; none is zeros.
    #[tactic(auto, using(crate::proofs::Stacked::things_top), unfolding(crate::specs::model::Emission::top, crate::specs::model::Arrays::things_of))]
    pub(crate) fn top(self, things: &[Thing; 8192]) -> Thing
        requires { self.open ≤ 8192 }
        ensures { seen result ≡ top (things_of self.open things.now) }
    {
        match self.open.checked_sub(1) {
            Some(newest) => things[newest],
            None => Thing::default(),
        }
    }

    // The last node is no name.
    #[tactic(auto, unfolding(crate::specs::model::Emission::nameless, crate::specs::model::Emission::with_variable))]
    pub(crate) fn nameless(mut self) -> Writing
        ensures { (us : List Used) (op : List Thing) (co ah en : List ℕ) → see result us op co ah en ≡ nameless (see self us op co ah en) }
    {
        self.variable = 0;
        self
    }

    // One address more lies ahead.
    #[tactic(auto, unfolding(crate::specs::model::Emission::with_slot))]
    pub(crate) fn slot(mut self) -> Writing
        requires { self.slots < 1048576 }
        ensures { (us : List Used) (op : List Thing) (co ah en : List ℕ) → see result us op co ah en ≡ with_slot (see self us op co ah en) }
    {
        self.slots += 1;
        self
    }
}
