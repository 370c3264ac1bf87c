//! The numbers that Parquet stores as they are.
ghost use Rattle.std.specs.Prelude.{◌≡◌, ◌++◌, ℕ, List, IfOk, IfErr};
ghost use Rattle.columns_base.specs.declared.physical.PhysicalType.{PhysicalType};

use crate::native::NativeType;
use columns_base::{Error, PhysicalType, Result};

/// A number that a column stores (Parquet format, `Type`: INT32 and INT64).
pub trait ParquetNativeType: NativeType {
    // its bytes, lowest first
    ghost stored: { Self → List ℕ };

    ghost physical: { PhysicalType };

    /// The physical type of a column of such numbers.
    fn physical_type() -> PhysicalType
        ensures { result ≡ physical };

    /// Appends its bytes, lowest first (Parquet format, Encodings, "Plain").
    ///
    /// # Errors
    ///
    /// `Memory`; `out` is then as before.
    fn push_le_bytes(&self, out: &mut Vec<u8>) -> Result<()>
        ensures ok { IfOk result (λ _. out.new.items ≡ out.old.items ++ stored self.now) }
        ensures err { IfErr result (λ e. (e ≡ Error.Memory) × (out.new.items ≡ out.old.items)) };
}

impl ParquetNativeType for i32 {
    ghost use Rattle.std.specs.Int.{w32, cast_unsigned, to_le_bytes};
    ghost use Rattle.columns_base.specs.declared.physical.PhysicalType.TheVariants as physicals;

    ghost stored = { λ x. to_le_bytes w32 (cast_unsigned w32 x) };

    ghost physical = { physicals.Int32 };

    fn physical_type() -> PhysicalType {
        PhysicalType::Int32
    }

    fn push_le_bytes(&self, out: &mut Vec<u8>) -> Result<()> {
        out.extend_from_slice(&self.to_le_bytes())?;
        Ok(())
    }
}

impl ParquetNativeType for i64 {
    ghost use Rattle.std.specs.Int.{w64, cast_unsigned, to_le_bytes};
    ghost use Rattle.columns_base.specs.declared.physical.PhysicalType.TheVariants as physicals;

    ghost stored = { λ x. to_le_bytes w64 (cast_unsigned w64 x) };

    ghost physical = { physicals.Int64 };

    fn physical_type() -> PhysicalType {
        PhysicalType::Int64
    }

    fn push_le_bytes(&self, out: &mut Vec<u8>) -> Result<()> {
        out.extend_from_slice(&self.to_le_bytes())?;
        Ok(())
    }
}
