//! The handlers of `resume`.

/// The immediates of a `resume`, `resume_throw` or `resume_throw_ref` (wasmparser's `ResumeTable`): what
/// takes a suspension.
#[derive(Clone, Copy, Debug, PartialEq, Eq)]
pub struct ResumeTable<'a> {
    /// Its handlers, of which the first that fits takes a suspension.
    pub handlers: &'a [Handle],
}

/// A handler of a `resume` (wasmparser's `Handle`; a proposal, "Stack Switching").
#[derive(Clone, Copy, Debug, PartialEq, Eq)]
pub enum Handle {
    /// `on` a label: a suspension with this tag goes to the label with what it carries, and with the
    /// continuation of what was suspended.
    OnLabel {
        /// The tag at this index.
        tag: u32,
        /// The label at this index.
        label: u32,
    },
    /// `on switch`: a `switch` with this tag goes to another continuation.
    OnSwitch {
        /// The tag at this index.
        tag: u32,
    },
}
