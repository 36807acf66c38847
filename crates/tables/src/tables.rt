ghost use Rattle.std.specs.Prelude.{◌≡◌};
ghost use Rattle.base.specs.declared.controller.protocol.Protocol.TheVariants as Protocol;
ghost use Rattle.tables.specs.Tables.{baseline, baseline_of};

use base::controller::Protocol;
use cache_table::CacheTable;
use directory_table::DirectoryTable;
use std::marker::Model;

/// The tables of both controllers, which are of one protocol.
#[derive(Clone, Copy, Debug, PartialEq, Eq)]
pub struct Tables {
    pub cache: CacheTable,
    pub directory: DirectoryTable,
}

impl Model for Tables {
    ghost use Rattle.std.specs.Prelude.{◌≡◌};
    ghost use Rattle.tables.specs.Tables as machine;

    ghost Value = { machine.Tables };

    ghost view = { λ t. record { protocol = t.cache.protocol; cache = t.cache.cells; directory = t.directory.cells } };

    ghost invariant = { λ t. t.cache.protocol ≡ t.directory.protocol };

    ghost inverse = { λ t. record {
      cache = record { protocol = t.protocol; cells = t.cache };
      directory = record { protocol = t.protocol; cells = t.directory };
    } };
}

impl Tables {
    /// The own tables of MSI (Primer, section 8.2; cell by cell in `docs/PROTOCOL.md`).
    pub fn baseline() -> Tables
        ensures { result ≡ baseline }
    {
        Tables::baseline_of(Protocol::Msi)
    }

    /// A protocol's own tables.
    pub fn baseline_of(protocol: Protocol) -> Tables
        ensures { result ≡ baseline_of protocol }
    {
        Tables {
            cache: CacheTable::baseline_of(protocol),
            directory: DirectoryTable::baseline_of(protocol),
        }
    }

    /// Their protocol.
    pub fn protocol(&self) -> Protocol
        ensures { result ≡ self.now.protocol }
    {
        self.cache.protocol()
    }
}
