//! What a codec of schemas promises.

ghost use Rattle.std.specs.Prelude.{◌≡◌, ◌≤◌, ◌<◌, ℕ, List, length, Option, Some, option_map, IfOk, IfErr, Err};
ghost use Rattle.columns_core.specs.Measures.{fields_nesting};
ghost use Rattle.columns_core.specs.View.{SchemaTree, schema_view};
ghost use Rattle.schema_codec.specs.declared.fault.CodecFault.TheVariants.{TooLarge, Memory};
ghost use Rattle.schema_codec.specs.Ranges.{IsSchema, IsBytes, max_nesting, max_length};

use crate::fault::CodecFault;
use columns_core::Schema;
use std::alloc::Global;

/// A schema as bytes, and back.
pub trait SchemaCodec {
    // the bytes of a schema
    ghost bytes_of: { Self → SchemaTree → List ℕ };

    // the schema that bytes spell, if they spell one
    ghost reads: { Self → List ℕ → Option SchemaTree };

    /// The bytes of the schema.
    ///
    /// # Errors
    ///
    /// - `TooLarge`: they are more than 2^31 - 1.
    /// - `Memory`: memory ran out.
    fn encode(&self, alloc: Global, schema: &Schema) -> Result<Vec<u8>, CodecFault>
        ensures ok { IfOk result (λ v. v.items ≡ bytes_of self.now (schema_view schema.now)) }
        ensures small { IfOk result (λ v. length v.items ≤ max_length) }
        ensures large { result ≡ Err TooLarge → max_length < length (bytes_of self.now (schema_view schema.now)) };

    /// The schema that the bytes spell, or `None` where they spell none.
    ///
    /// # Errors
    ///
    /// `Memory`: memory ran out.
    fn decode(&self, alloc: Global, bytes: &[u8]) -> Result<Option<Schema>, CodecFault>
        ensures ok { IfOk result (λ o. option_map schema_view o ≡ reads self.now bytes.now) }
        ensures memory { IfErr result (λ e. e ≡ Memory) };

    // the bytes of a schema are read as that schema
    ghost read_again: { (c : Self) (s : SchemaTree) → IsSchema s → fields_nesting s.fields ≤ max_nesting
        → length (bytes_of c s) ≤ max_length → reads c (bytes_of c s) ≡ Some s };

    // the types of a schema that is read do not nest deeper
    ghost shallow: { (c : Self) (bytes : List ℕ) (s : SchemaTree) → IsBytes bytes → reads c bytes ≡ Some s
        → fields_nesting s.fields ≤ max_nesting };
}
