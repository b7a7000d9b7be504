//! The types of blocks.

ghost use Rattle.std.specs.Prelude.{◌≡◌, IfNone, IfSome, true};
ghost use Rattle.validate_visit.specs.declared.frame.BlockType.{BlockType};
ghost use Rattle.script_reader.specs.Blocks.{IsBlockName, fits_block};

use crate::parts::numbers::read_index;
use crate::parts::values::read_value_type;
use validate_visit::BlockType;

/// The block type that a word names, if it does: a value type, or the index of a function type.
pub fn read_block_type(word: &str) -> Option<BlockType>
    ensures named { IfSome result (λ ty. IsBlockName word.now ty) }
    ensures other { IfNone result ((ty : BlockType) → fits_block ty ≡ true → ¬ (IsBlockName word.now ty)) }
{
    if let Some(ty) = read_value_type(word) {
        return Some(BlockType::Val(ty));
    }
    let index = read_index(word)?;
    Some(BlockType::FuncType(index))
}
