// The rule of the table, and the names of its steps.
use crate::start::Start;
use crate::view::View;
use atomic_table::{Join, Play, Seat, Split, Table, TableRule};
use lane_types::Laned;
use std::alloc::Global;
use std::marker::PhantomData;

/// The rule, told the value at the start.
pub struct Turns<T> {
    marker: PhantomData<T>,
}

impl<T: Laned> TableRule<Option<T>, View<T>, Start<T>> for Turns<T> {
    ghost use Rattle.turn_hub.specs.Turns.{TurnRule};
    ghost use Rattle.turn_hub.specs.Plays.{opening_view};

    ghost holds = { λ key. TurnRule T.seen key.value.value };

    ghost first = { λ key. opening_view key.value.value (T.seen key.value.value).lanes };
}

pub type Place<T> = Seat<Option<T>, View<T>>;

pub type Board<T> = Table<Option<T>, View<T>, Start<T>, Turns<T>, Global>;

/// The first lane leaves for a seat of its own.
pub struct Parting;

impl<T> Split<View<T>> for Parting {
    ghost use Rattle.turn_hub.specs.Plays.{without_first, first_alone};

    ghost left = { without_first };

    ghost right = { first_alone };
}

/// A seat takes in another's lanes.
pub struct Meeting;

impl<T> Join<View<T>> for Meeting {
    ghost use Rattle.turn_hub.specs.Plays.{joined, spent};

    ghost both = { joined };

    ghost spent = { spent };
}

/// The empty slot leaves its place.
pub struct Opening;

impl<T> Play<Option<T>, View<T>> for Opening {
    ghost use Rattle.turn_hub.specs.Plays.{opened};

    ghost then = { opened };
}

/// The value is laid into the table.
pub struct Laying;

impl<T> Play<Option<T>, View<T>> for Laying {
    ghost use Rattle.turn_hub.specs.Plays.{laid};

    ghost then = { laid };
}

/// The turn is taken, or found with another.
pub struct Taking;

impl<T: Laned> Play<Option<T>, View<T>> for Taking {
    ghost use Rattle.turn_hub.specs.Plays.{took};

    ghost then = { took T.seen };
}

/// The turn is given back.
pub struct Giving;

impl<T> Play<Option<T>, View<T>> for Giving {
    ghost use Rattle.turn_hub.specs.Plays.{gave};

    ghost then = { gave };
}

/// The word that the step changed is stored.
pub struct Noting;

impl<T> Play<Option<T>, View<T>> for Noting {
    ghost use Rattle.turn_hub.specs.Plays.{noted};

    ghost then = { noted };
}

/// A word is read without the turn.
pub struct Knowing;

impl<T: Laned> Play<Option<T>, View<T>> for Knowing {
    ghost use Rattle.turn_hub.specs.Plays.{known};

    ghost then = { known T.seen };
}
