//! A turn.
ghost use Rattle.std.specs.Prelude.{◌≡◌};
ghost use Rattle.std.specs.Borrow.{Lends, sem};
ghost use Rattle.turn_lock.specs.contracts.turn.Turn.{the_row};
ghost use Rattle.turn_lock.specs.Turns.{turn_value};

/// The value of a lock while a seat has its turn. It goes back by `TurnLock::give`.
pub struct Turn<T> {
    pub(crate) value: T,
}

impl<T> Turn<T> {
    /// Lends the value.
    pub fn value(&mut self) -> &mut T
        ensures value { result.now ≡ turn_value self.old }
        ensures* writes_back { sem 𝓛 (Lends (the_row T.row) T.row self.entry result (λ w. record { value = w })) }
    {
        &mut self.value
    }
}
