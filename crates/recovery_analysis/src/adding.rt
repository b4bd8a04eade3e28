// Lists that may want memory.
ghost use Rattle.std.specs.Prelude.{◌≡◌, ◌∷◌, ◌++◌, [], OnOk};

use persist_model::{List, NoMemory};

// Puts a value at the end of a list.
pub(crate) fn add<T: Drop>(list: &mut List<T>, value: T) -> Result<(), NoMemory>
    ensures { OnOk result (list.new ≡ list.old ++ value ∷ []) }
{
    match list.push(value) {
        Ok(()) => Ok(()),
        Err(_) => Err(NoMemory),
    }
}
