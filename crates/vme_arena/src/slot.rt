//! A cell that holds a stretch's granules, or nothing while they are in use.
ghost use Rattle.std.specs.Prelude.{◌≡◌, IfSome};
ghost use base.Fml.{fex, fsep, ftrue};
ghost use Rattle.vme_arena.specs.Stretch.{Stretch};
ghost use Rattle.vme_arena.specs.Held.{held_stretch};
ghost use Rattle.vme_arena.specs.Ownership.{behind_a_ref};

use crate::held::Held;
use std::marker::{Move, Owns};

#[derive(Drop)]
pub(crate) struct Slot<'r> {
    held: Option<Held<'r>>,
}

impl<'r> Owns for Slot<'r> {
    ghost Value = { Stretch };

    ghost shr_at = { λ s.
        behind_a_ref Fields (λ i. fex (IfSome i.held (λ h. held_stretch h ≡ s)) (λ _. ftrue)) };
}

impl<'r> Move for Slot<'r> {
    ghost own_val = { λ s vs.
        fex Inside (λ i. fsep (Fields.own_val i vs)
        (fex (IfSome i.held (λ h. held_stretch h ≡ s)) (λ _. ftrue))) };
}

impl<'r> Slot<'r> {
    pub(crate) fn new(held: Held<'r>) -> Slot<'r>
        ensures { result ≡ held_stretch held.entry }
    {
        Slot { held: Some(held) }
    }

    pub(crate) fn replace(&self, held: Option<Held<'r>>) -> Option<Held<'r>>
        requires { IfSome held (λ h. held_stretch h ≡ self.now) }
        ensures { IfSome result (λ h. held_stretch h ≡ self.now) }
    {
        let place = &raw const self.held as *mut Option<Held<'r>>;
        unsafe {
            let old = place.read();
            place.write(held);
            old
        }
    }
}

unsafe impl Send for Slot<'_> {}
