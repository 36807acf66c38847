use base::controller::Side;
use base::text::Text;
use cache_table::CacheChange;
use directory_table::DirectoryChange;
use tables::{CellPlace, Tables};

/// A cell as `msi tables` spells it.
pub(crate) fn text_of(tables: &Tables, cell: CellPlace) -> Text {
    match cell {
        CellPlace::Cache(state, event) => {
            let entry = tables.cache.entry(state, event);
            let found = CacheChange {
                state,
                event,
                entry,
            };
            found.text(Side::Cache)
        }
        CellPlace::Directory(state, event) => {
            let entry = tables.directory.entry(state, event);
            let found = DirectoryChange {
                state,
                event,
                entry,
            };
            found.text(Side::Directory)
        }
    }
}
