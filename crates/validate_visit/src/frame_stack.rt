//! Who knows the frame that is open.

ghost use Rattle.std.specs.Prelude.{◌≡◌, Option};
ghost use Rattle.validate_visit.specs.declared.frame.FrameKind.{FrameKind};

use crate::frame::FrameKind;

/// Has open frames (wasmparser's `FrameStack`).
pub trait FrameStack {
    /// The kind of the innermost open frame, where one is open.
    ghost current: { Self → Option FrameKind };

    /// The kind of the innermost open frame, and `None` where none is open.
    fn current_frame(&self) -> Option<FrameKind>
        ensures { result ≡ current self.now };
}
