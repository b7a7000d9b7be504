//! The lists of operators, which lend them once all are read.

ghost use Rattle.std.specs.Prelude.{◌≡◌, ◌≢◌, ◌↔◌, ◌&&◌, ℕ, List, [], true, false, not, All, IfOk, IfSome, IsErrOf, IsSome, IsSomeAnd, OnOk, map};
ghost use Rattle.std.specs.Str.Parse.{digits_value};
ghost use Rattle.script_reader.specs.Listed.{listed_labels, listed_types, listed_try_table, listed_handlers, listed_resume, listed_throw, listed_throw_ref, opens_block, resumption_indices};
ghost use Rattle.validate_visit.specs.declared.catch.Catch.{Catch};
ghost use Rattle.validate_visit.specs.declared.frame.BlockType.{BlockType};
ghost use Rattle.script_reader.specs.Blocks.{fits_block};
ghost use Rattle.validate_visit.specs.declared.resume.Handle.{Handle};
ghost use Rattle.script_reader.specs.Catches.{AreTryImmediates};
ghost use Rattle.script_reader.specs.Handlers.{AreResumeImmediates, AreThrowImmediates};
ghost use Rattle.script_reader.specs.Indices.{continuation_indices};
ghost use Rattle.script_reader.specs.Numbers.{IsIndex};
ghost use Rattle.script_reader.specs.Written.{labels_of, select_types, try_table_of, handlers_in, handlers_of, is_complete, may_be_attempted};
ghost use Rattle.script_reader.specs.declared.parts.failure.LineError.{LineError};

use crate::parts::blocks::read_block_type;
use crate::parts::catches::read_catches;
use crate::parts::failure::LineError;
use crate::parts::handlers::read_handlers;
use crate::parts::numbers::{read_index, read_indices};
use crate::parts::values::read_value_types;
use std::alloc::Global;
use validate_types::ValType;
use validate_visit::{
    BlockType, BrTable, Catch, ContinuationOp, ControlOp, ExceptionOp, Handle, Op, ResumeTable,
    TryTable,
};

/// The list of an operator that has one.
#[derive(Drop)]
pub enum OperatorList {
    /// The labels of a `br_table`.
    Labels {
        /// All but the default.
        targets: Vec<u32>,
        /// The default.
        default: u32,
    },
    /// The types of a `select` of several values.
    Types(Vec<ValType>),
    /// The clauses of a `try_table`.
    Catches {
        /// The type of the block.
        ty: BlockType,
        /// The clauses.
        catches: Vec<Catch>,
    },
    /// The handlers of a `resume`.
    Handlers {
        /// What is resumed, and how.
        resumption: Resumption,
        /// The handlers.
        handlers: Vec<Handle>,
    },
}

/// What is resumed, and with what.
#[derive(Clone, Copy)]
pub enum Resumption {
    /// A continuation of the type at this index, with what it takes.
    Resume(u32),
    /// A continuation of the type at the first index, with an exception of the tag at the second.
    Throw(u32, u32),
    /// A continuation of the type at this index, with a reference to an exception.
    ThrowRef(u32),
}

impl Resumption {
    /// The operator that resumes it with these handlers.
    fn op(self, handlers: &[Handle]) -> ContinuationOp<'_>
        ensures handlers { handlers_in result ≡ handlers.now }
        ensures indices { continuation_indices result ≡ resumption_indices self }
    {
        let resume_table = ResumeTable { handlers };
        match self {
            Resumption::Resume(cont_type_index) => ContinuationOp::Resume {
                cont_type_index,
                resume_table,
            },
            Resumption::Throw(cont_type_index, tag_index) => ContinuationOp::ResumeThrow {
                cont_type_index,
                tag_index,
                resume_table,
            },
            Resumption::ThrowRef(cont_type_index) => ContinuationOp::ResumeThrowRef {
                cont_type_index,
                resume_table,
            },
        }
    }
}

impl OperatorList {
    /// Whether the operator that has this list opens a block, as a `try_table` does.
    fn opens_block(&self) -> bool
        ensures { result ≡ opens_block self.now }
    {
        matches!(self, OperatorList::Catches { .. })
    }

    /// The operator that has this list.
    pub fn op(&self) -> Op<'_>
        ensures labels { labels_of result ≡ listed_labels self.now }
        ensures types { select_types result ≡ listed_types self.now }
        ensures try_table { try_table_of result ≡ listed_try_table self.now }
        ensures handlers { handlers_of result ≡ listed_handlers self.now }
        ensures complete { is_complete result ≡ true }
        ensures attempt { may_be_attempted result ≡ not (opens_block self.now) }
    {
        match self {
            OperatorList::Labels { targets, default } => {
                Op::Control(ControlOp::BrTable(BrTable {
                    targets,
                    complete: true,
                    default: *default,
                }))
            }
            OperatorList::Types(types) => Op::Control(ControlOp::TypedSelectMulti(types)),
            OperatorList::Catches { ty, catches } => {
                Op::Exception(ExceptionOp::TryTable(TryTable { ty: *ty, catches }))
            }
            OperatorList::Handlers {
                resumption,
                handlers,
            } => Op::Continuation(resumption.op(handlers)),
        }
    }
}

/// An operator that has a list, and where it stands in a script.
#[derive(Drop)]
pub struct ListedOperator {
    /// How many operators stand before it.
    pub place: usize,
    /// The number of its line.
    pub number: u64,
    /// Whether it is attempted alone.
    pub attempted: bool,
    /// Its list.
    pub list: OperatorList,
    ghost allowed: { attempted ≡ true → opens_block list ≡ false },
}

impl ListedOperator {
    /// The operator of the line of this number, behind so many others, attempted or not. One that opens a block
    /// may not be attempted.
    pub fn new(
        place: usize,
        number: u64,
        attempted: bool,
        list: OperatorList,
    ) -> Option<ListedOperator>
        ensures place { IfSome result (λ listed. listed.place ≡ place) }
        ensures number { IfSome result (λ listed. listed.number ≡ number) }
        ensures attempted { IfSome result (λ listed. listed.attempted ≡ attempted) }
        ensures list { IfSome result (λ listed. listed.list ≡ list) }
        ensures some { IsSome result ↔ ((attempted && opens_block list) ≡ false) }
    {
        if attempted && list.opens_block() {
            return None;
        }
        Some(ListedOperator {
            place,
            number,
            attempted,
            list,
        })
    }
}

/// Whether the operator of this name has a list. The first letter tells most names apart.
pub fn has_list(name: &str) -> bool {
    match name.as_bytes().first() {
        Some(b'b') => name == "br_table",
        Some(b'r') => matches!(name, "resume" | "resume_throw" | "resume_throw_ref"),
        Some(b's') => name == "select_multi",
        Some(b't') => name == "try_table",
        _ => false,
    }
}

/// Reads the list of an operator: its name, and the words of the list after it.
pub fn read_list(alloc: Global, words: &[&str]) -> Result<OperatorList, LineError> {
    let (name, immediates) = words.split_first().ok_or(LineError::Bad)?;
    match *name {
        "br_table" => read_labels(alloc, immediates),
        "select_multi" => read_types(alloc, immediates),
        "try_table" => read_try_table(alloc, immediates),
        "resume" => read_resume(alloc, immediates),
        "resume_throw" => read_resume_throw(alloc, immediates),
        "resume_throw_ref" => read_resume_throw_ref(alloc, immediates),
        _ => Err(LineError::Bad),
    }
}

/// The types of a `select` of several values.
fn read_types(alloc: Global, types: &[&str]) -> Result<OperatorList, LineError> {
    let types = read_value_types(alloc, types)?;
    Ok(OperatorList::Types(types))
}

/// The labels of a `br_table`, of which the last is the default.
fn read_labels(alloc: Global, labels: &[&str]) -> Result<OperatorList, LineError>
    ensures labels { IfOk result (λ list. listed_labels list
        ≡ map (λ label. digits_value 10 label.now) labels.now) }
    ensures good { OnOk result (All (λ label. IsIndex label.now) labels.now) }
    ensures bad { IsErrOf result LineError.Bad → labels.now ≢ []
        → ¬ (All (λ label. IsIndex label.now) labels.now) }
{
    let (default, targets) = labels.split_last().ok_or(LineError::Bad)?;
    let default = read_index(default).ok_or(LineError::Bad)?;
    let targets = read_indices(alloc, targets)?;
    Ok(OperatorList::Labels { targets, default })
}

/// The immediates of a `try_table`: its type, or none, which means the empty one, and its clauses.
fn read_try_table(alloc: Global, words: &[&str]) -> Result<OperatorList, LineError>
    ensures read { IfOk result (λ list. IsSomeAnd (listed_try_table list)
        (λ table. AreTryImmediates (map (λ word. word.now) words.now) table.0 table.1)) }
    ensures bad { IsErrOf result LineError.Bad → (ty : BlockType) → (catches : List Catch)
        → fits_block ty ≡ true → ¬ (AreTryImmediates (map (λ word. word.now) words.now) ty catches) }
{
    if let Some((first, clauses)) = words.split_first() {
        if let Some(ty) = read_block_type(first) {
            let catches = read_catches(alloc, clauses)?;
            return Ok(OperatorList::Catches { ty, catches });
        }
    }
    let catches = read_catches(alloc, words)?;
    Ok(OperatorList::Catches {
        ty: BlockType::Empty,
        catches,
    })
}

/// The immediates of a `resume`: a type, and its handlers.
fn read_resume(alloc: Global, words: &[&str]) -> Result<OperatorList, LineError>
    ensures read { IfOk result (λ list. IsSomeAnd (listed_resume list)
        (λ p. AreResumeImmediates (map (λ word. word.now) words.now) p.0 p.1)) }
    ensures bad { IsErrOf result LineError.Bad → (type : ℕ) → (handlers : List Handle)
        → ¬ (AreResumeImmediates (map (λ word. word.now) words.now) type handlers) }
{
    let (ty, handlers) = words.split_first().ok_or(LineError::Bad)?;
    let ty = read_index(ty).ok_or(LineError::Bad)?;
    Ok(OperatorList::Handlers {
        resumption: Resumption::Resume(ty),
        handlers: read_handlers(alloc, handlers)?,
    })
}

/// The immediates of a `resume_throw`: a type, a tag, and its handlers.
fn read_resume_throw(alloc: Global, words: &[&str]) -> Result<OperatorList, LineError>
    ensures read { IfOk result (λ list. IsSomeAnd (listed_throw list)
        (λ p. AreThrowImmediates (map (λ word. word.now) words.now) p.0 p.1 p.2)) }
    ensures bad { IsErrOf result LineError.Bad → (type : ℕ) → (tag : ℕ) → (handlers : List Handle)
        → ¬ (AreThrowImmediates (map (λ word. word.now) words.now) type tag handlers) }
{
    let (ty, rest) = words.split_first().ok_or(LineError::Bad)?;
    let (tag, handlers) = rest.split_first().ok_or(LineError::Bad)?;
    let ty = read_index(ty).ok_or(LineError::Bad)?;
    let tag = read_index(tag).ok_or(LineError::Bad)?;
    Ok(OperatorList::Handlers {
        resumption: Resumption::Throw(ty, tag),
        handlers: read_handlers(alloc, handlers)?,
    })
}

/// The immediates of a `resume_throw_ref`: a type, and its handlers.
fn read_resume_throw_ref(alloc: Global, words: &[&str]) -> Result<OperatorList, LineError>
    ensures read { IfOk result (λ list. IsSomeAnd (listed_throw_ref list)
        (λ p. AreResumeImmediates (map (λ word. word.now) words.now) p.0 p.1)) }
    ensures bad { IsErrOf result LineError.Bad → (type : ℕ) → (handlers : List Handle)
        → ¬ (AreResumeImmediates (map (λ word. word.now) words.now) type handlers) }
{
    let (ty, handlers) = words.split_first().ok_or(LineError::Bad)?;
    let ty = read_index(ty).ok_or(LineError::Bad)?;
    Ok(OperatorList::Handlers {
        resumption: Resumption::ThrowRef(ty),
        handlers: read_handlers(alloc, handlers)?,
    })
}
