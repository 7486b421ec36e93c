//! The slots of a desk, one for each circuit: each is empty or has a hold.
ghost use Rattle.std.specs.Prelude.{◌≡◌, ℕ, length, IfOk, Some, None, true};
ghost use Rattle.certificates.specs.Limits.{circuit_sound};
ghost use Rattle.desks.specs.Slots.{hand, with_slot};

use boards::Hold;
use certificates::limits::LAST_CIRCUIT;
use std::alloc::{AllocError, Global};
use std::mem;

// The slot of circuit 1 comes first.
pub(crate) struct Slots {
    pub(crate) list: Vec<Option<Hold>>,
    ghost room: { length list.items ≡ 32 },
}

impl Slots {
    // Slots that are all empty.
    pub(crate) fn empty(heap: Global) -> Result<Slots, AllocError>
        ensures { IfOk result (λ slots. (c : ℕ) → hand slots.list.items c ≡ None) }
    {
        let circuits = usize::from(LAST_CIRCUIT);
        let mut list = Vec::with_capacity(heap, circuits)?;
        for _ in 0..circuits {
            list.push_reserved(None);
        }
        Ok(Slots { list })
    }

    // Puts a hold into the slot of a circuit, which is empty.
    pub(crate) fn put(&mut self, circuit: u8, hold: Hold)
        requires circuit { circuit_sound circuit ≡ true }
        requires free { hand self.old.list.items circuit ≡ None }
        ensures { (c : ℕ) → hand self.new.list.items c
            ≡ with_slot circuit (Some hold) (hand self.old.list.items) c }
    {
        let slot = &mut self.list[usize::from(circuit) - 1];
        match mem::replace(slot, Some(hold)) {
            None => {}
            Some(_before) => unreachable!(),
        }
    }

    // Takes the hold out of the slot of a circuit, if there is one.
    pub(crate) fn take(&mut self, circuit: u8) -> Option<Hold>
        ensures out { result ≡ hand self.old.list.items circuit }
        ensures after { (c : ℕ) → hand self.new.list.items c
            ≡ with_slot circuit None (hand self.old.list.items) c }
    {
        let place = usize::from(circuit).checked_sub(1)?;
        if place < self.list.len() {
            let slot = &mut self.list[place];
            mem::replace(slot, None)
        } else {
            None
        }
    }
}
