// The one search for the first free place, for every kind of slot.
ghost use Rattle.std.specs.Prelude.{◌≡◌, ◌<◌, Bool, length, IfSome};
ghost use Rattle.model.specs.Tree.{first};

// A place that is free or not: a directory entry, a file entry, a byte of the map.
pub trait Slot {
    ghost vacant: { Self → Bool };

    fn is_free(&self) -> bool
        ensures { result ≡ vacant self.now };
}

// The lowest free slot.
pub fn first_free<T: Slot>(slots: &[T]) -> Option<usize>
    ensures value { result ≡ first T.vacant slots.now }
    ensures bound { IfSome result (λ i. i < length slots.now) }
{
    slots.iter().position(|slot| slot.is_free())
}
