//! Texts of our own.
ghost use Rattle.std.specs.Prelude.{◌≡◌, IfOk, IfErr, option_map, string_bytes};
ghost use Rattle.std.specs.Option.{option_copied};
ghost use Rattle.columns_base.specs.declared.error.Error.TheVariants.{Memory};

use columns_base::Error;
use std::alloc::Global;

/// A copy of the text, if there is one.
pub fn owned_text(alloc: Global, text: Option<&str>) -> Result<Option<String>, Error>
    ensures same { IfOk result (λ copy. option_map string_bytes copy ≡ option_copied text.entry) }
    ensures refused { IfErr result (λ e. e ≡ Memory) }
{
    match text {
        Some(text) => Ok(Some(String::from_str(alloc, text)?)),
        None => Ok(None),
    }
}
