//! Faults that borrow the text, so that none needs memory before it is returned.
ghost use Rattle.std.specs.Prelude.{◌≡◌};
ghost use Rattle.vme_scenario.specs.declared.faults.TextFault.TheVariants.{Memory};

use std::alloc::{AllocError, AllocFailed};

/// What is wrong at a key of one table.
#[derive(Clone, Copy, Debug)]
pub(crate) enum KeyFault<'a> {
    Unknown(&'a str),
    Missing(&'static str),
    Bad(&'static str),
}

/// What is wrong in a board's table, or in a table inside it.
#[derive(Clone, Copy, Debug)]
pub(crate) enum BoardFault<'a> {
    Board(KeyFault<'a>),
    Requester(KeyFault<'a>),
    Interrupter(KeyFault<'a>),
}

/// What is wrong in a scenario; boards and jumpers are numbered from 1.
#[derive(Clone, Copy, Debug)]
pub(crate) enum TextFault<'a> {
    Top(KeyFault<'a>),
    Board(usize, BoardFault<'a>),
    Jumper(usize, KeyFault<'a>),
    Memory,
}

impl From<AllocError> for TextFault<'_> {
    ghost from_gives = { λ _ f. f ≡ Memory };

    fn from(_: AllocError) -> Self {
        TextFault::Memory
    }
}

impl<T: Drop> From<AllocFailed<T>> for TextFault<'_> {
    ghost from_gives = { λ _ f. f ≡ Memory };

    fn from(_: AllocFailed<T>) -> Self {
        TextFault::Memory
    }
}
