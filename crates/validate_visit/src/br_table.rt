//! The table of `br_table`.

ghost use Rattle.std.specs.Prelude.{◌≡◌};
ghost use Rattle.std.specs.Iterator.{YieldsFirst, item_count};
ghost use Rattle.validate_visit.specs.Branches.{targets_given, targets_left};

/// The labels of a `br_table` (wasmparser's `BrTable`).
///
/// wasmparser reads the targets from the binary as they are asked for, and may find too few. Here they
/// are read before, and the table says whether they are all.
#[derive(Clone, Copy, Debug, PartialEq, Eq)]
pub struct BrTable<'a> {
    /// The labels that an operand chooses from.
    pub targets: &'a [u32],
    /// Whether none of the targets is missing.
    pub complete: bool,
    /// The label of every other operand.
    pub default: u32,
}

/// The table ended before its last target.
#[derive(Clone, Copy, Debug, PartialEq, Eq)]
pub struct IncompleteTable;

impl<'a> BrTable<'a> {
    /// The label of an operand that chooses no target.
    pub fn default(&self) -> u32
        ensures { result ≡ self.now.default }
    {
        self.default
    }

    /// The targets in order, and an error after them where some are missing.
    pub fn targets(&self) -> BrTableTargets<'a>
        ensures { targets_left result ≡ targets_given self.now.targets.now self.now.complete }
    {
        BrTableTargets {
            targets: self.targets,
            complete: self.complete,
        }
    }
}

/// What [`BrTable::targets`] has yet to give (wasmparser's `BrTableTargets`).
#[derive(Debug, Drop)]
pub struct BrTableTargets<'a> {
    targets: &'a [u32],
    complete: bool,
}

impl<'a> Iterator for BrTableTargets<'a> {
    type Item = Result<u32, IncompleteTable>;

    ghost next_gives = { YieldsFirst targets_left };

    ghost remaining = { item_count targets_left };

    fn next(&mut self) -> Option<Result<u32, IncompleteTable>> {
        if let Some((target, others)) = self.targets.split_first() {
            self.targets = others;
            return Some(Ok(*target));
        }
        if self.complete {
            return None;
        }
        self.complete = true;
        Some(Err(IncompleteTable))
    }
}
