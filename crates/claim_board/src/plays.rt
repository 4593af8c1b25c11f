//! What each kind of step tells.

ghost use Rattle.claim_board.specs.Plays.{began, comes, gave, joined, looked, reached, spent, stays};

use crate::view::View;
use atomic_table::{Join, Play, Split};
use op_cells::Cell;

/// A load.
pub(crate) struct Look;

impl Play<Option<Cell>, View> for Look {
    ghost then = { looked };
}

/// An exchange on the first word of an operation.
pub(crate) struct Begin;

impl Play<Option<Cell>, View> for Begin {
    ghost then = { began };
}

/// An exchange on a further word.
pub(crate) struct Reach;

impl Play<Option<Cell>, View> for Reach {
    ghost then = { reached };
}

/// A store to a word whose cell is home.
pub(crate) struct Give;

impl Play<Option<Cell>, View> for Give {
    ghost then = { gave };
}

/// A pass makes another.
pub(crate) struct Cut;

impl Split<View> for Cut {
    ghost left = { stays };

    ghost right = { comes };
}

/// A pass takes in another.
pub(crate) struct Merge;

impl Join<View> for Merge {
    ghost both = { joined };

    ghost spent = { spent };
}
