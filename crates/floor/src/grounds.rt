//! What names a floor.

use crate::tokens::{Log, Token};
use atomic_table::Table;
use base::NoMemory;
use std::alloc::Global;
use std::marker::{Brand, Model};

/// Which floor it is. `Floor`, `Hall`, `Seat` and `Receipt` name their floor by a type with this trait, mostly `Brand`.
pub trait Naming {
    ghost use Rattle.floor.specs.FloorId.{FloorId};

    ghost floor: { FloorId };
}

impl Naming for Brand {
    ghost use Rattle.floor.specs.FloorId.{no_floor};

    ghost floor = { no_floor };
}

/// What one floor is opened on. No other floor has its name.
#[derive(Drop)]
pub struct Ground {
    pub(crate) log: Log,
    pub(crate) token: Token,
}

impl Model for Ground {
    ghost use Rattle.std.specs.Prelude.{◌≡◌, []};
    ghost use Rattle.atomic_table.specs.Seated.{TableId, table_id_coded};
    ghost use Rattle.floor.specs.inner.Tokens.{keeper};

    ghost Value = { TableId };

    ghost coded = { table_id_coded };

    ghost view = { λ g. g.log.shared.table_id };

    ghost invariant = { λ g. (g.token.table_id ≡ g.log.shared.table_id) × (g.log.shared.table_id.words ≡ 1) × (g.token.me ≡ (keeper [] [] 0, [])) };
}

impl Ground {
    /// It is refused where a growth was refused.
    pub fn new(alloc: Global) -> Result<Ground, NoMemory> {
        let (log, token) = Table::of_words(alloc, &[0], &())?;
        Ok(Ground { log, token })
    }
}
