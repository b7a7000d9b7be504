//! The handlers of a `resume`.

ghost use Rattle.std.specs.Prelude.{◌≡◌, List, IfNone, IfOk, IfSome, IsErrOf, map};
ghost use Rattle.std.specs.List.{AllZip};
ghost use Rattle.validate_visit.specs.declared.resume.Handle.{Handle};
ghost use Rattle.script_reader.specs.Handlers.{IsHandlerName};
ghost use Rattle.script_reader.specs.declared.parts.failure.LineError.{LineError};

use crate::parts::catches::read_tag_and_label;
use crate::parts::failure::LineError;
use crate::parts::numbers::read_index;
use std::alloc::Global;
use validate_visit::Handle;

/// The handler that a word writes, if it does: its name, the index of a tag, and a label where it goes to
/// one, with a colon before each.
pub fn read_handler(word: &str) -> Option<Handle>
    ensures named { IfSome result (λ handle. IsHandlerName word.now handle) }
    ensures other { IfNone result ((handle : Handle) → ¬ (IsHandlerName word.now handle)) }
{
    if let Some(immediates) = word.strip_prefix("on:") {
        let (tag, label) = read_tag_and_label(immediates)?;
        return Some(Handle::OnLabel { tag, label });
    }
    if let Some(immediate) = word.strip_prefix("switch:") {
        let tag = read_index(immediate)?;
        return Some(Handle::OnSwitch { tag });
    }
    None
}

/// The handlers that these words write, if each of them does.
pub fn read_handlers(alloc: Global, words: &[&str]) -> Result<Vec<Handle>, LineError>
    ensures named { IfOk result (λ handlers. AllZip IsHandlerName (map (λ word. word.now) words.now)
        handlers.items) }
    ensures bad { IsErrOf result LineError.Bad → (handlers : List Handle)
        → ¬ (AllZip IsHandlerName (map (λ word. word.now) words.now) handlers) }
{
    let mut handlers = Vec::new(alloc);
    for word in words {
        handlers.push(read_handler(word).ok_or(LineError::Bad)?)?;
    }
    Ok(handlers)
}
