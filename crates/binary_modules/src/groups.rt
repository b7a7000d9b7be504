//! Recursion groups: types of equal groups are equal (WebAssembly core specification, "Defined Types").
//!
//! The lookup over lists gives each declared type an id of its own. So equal types are given one index
//! here, that of the first of them: whatever names a type is read through a list that says which stands for
//! it. A group is read twice, first rolled up, to be compared, and then as it is declared; but a type that is a group
//! alone, and names none of its own group, is the same both ways, and is read once.

ghost use Rattle.std.specs.Prelude.{ℕ, ◌≡◌, ◌≢◌, true, false, List, [], ◌++◌, length, slice_get, Some, None};
ghost use Rattle.std.specs.Prelude.{IfOk, IfErr, IfSome, OnOk, OnErr, IsSome, unwrap_or};
ghost use Rattle.std.specs.BTreeMap.{get, Updates};
ghost use Rattle.std.specs.List.{range_with_len};
ghost use Rattle.std.specs.Ordering.{nat_cmp};
ghost use Rattle.binary_operators.specs.declared.error.Cause.TheVariants.{OutOfMemory};
ghost use Rattle.binary_operators.specs.declared.types.GroupNames.TheVariants.{Places, Indices};
ghost use Rattle.validate_types.specs.declared.types.SubType.{SubType};
ghost use Rattle.binary_modules.specs.Groups.{Group, group_count};
ghost use Rattle.binary_modules.specs.GroupsRead.{AreTypes};
ghost use Rattle.binary_modules.specs.Read.{HasTypes, ReadsAnyhow, IsMixed, IsUnlike, Notes, Keeps, Knows};
ghost use Rattle.binary_modules.specs.Read.{alone_at, rolled_cmp, HasRead, HasReadTypes, HasReadGroup};
ghost use Rattle.binary_modules.specs.Read.{HasNoTypes, HasNoRolled, HasNoGroup, ReadsNoType, AreNoTypes};

use crate::lists::{list_for, make_room, read_so_many};
use crate::mixed::{RolledGroup, mix_types};
use crate::subtypes::{read_mark, read_sub_type};
use binary_operators::{BinaryReader, CanonicalTypes, Cause, GroupNames, ReadError, push};
use module_rules::RecGroup;
use std::alloc::Global;
use std::collections::BTreeMap;
use std::slice;
use validate_types::SubType;

/// The recursion groups that differ.
#[derive(Drop)]
struct Groups {
    /// Of each number that is mixed from a group: the index of the type from which it was first, if that is a group
    /// alone and is declared as it is rolled up. It isn't kept once more. None stands at a number whose groups are
    /// all among the others.
    numbers: BTreeMap<u64, Option<u32>>,
    /// Of each other group, rolled up, the index of its first type.
    others: BTreeMap<RolledGroup, u32>,
}

/// Whether a type stands at the index that isn't the group alone.
fn is_another(types: &[SubType], index: u32, group: &[SubType]) -> bool
    ensures there { result ≡ true → IsSome (slice_get types.now index) }
    ensures yes { result ≡ true → alone_at types.now index ≢ Some group.now }
    ensures no { result ≡ false → IsSome (slice_get types.now index)
        → alone_at types.now index ≡ Some group.now }
{
    match types.get(index as usize) {
        Some(ty) => group != slice::from_ref(ty),
        None => false,
    }
}

impl Groups {
    /// No groups. It takes no memory.
    fn new(alloc: Global) -> Groups
        ensures { (types : List SubType) → Knows result types [] }
    {
        Groups {
            numbers: BTreeMap::new(alloc),
            others: BTreeMap::new(alloc),
        }
    }

    /// What stands at a number: what stood there, or else this. It refuses want of memory alone.
    fn note(&mut self, number: u64, alone: Option<u32>) -> Result<Option<u32>, ReadError>
        ensures stands { IfOk result (λ first. first ≡ unwrap_or (get nat_cmp self.old.numbers number) alone) }
        ensures noted { OnOk result (Notes self.old self.new number alone) }
        ensures short { IfErr result (λ e. e.cause ≡ OutOfMemory) }
    {
        let Ok(entry) = self.numbers.entry(number) else {
            return Err(ReadError::out_of_memory(0));
        };
        let first = entry.or_insert(alone);
        Ok(*first)
    }

    /// The index that stands at the number of a group, if the type at it is the group alone, or isn't declared yet. If
    /// nothing stands there, this is put there. It refuses want of memory alone.
    fn find_alone(
        &mut self,
        types: &[SubType],
        group: &[SubType],
        number: u64,
        alone: Option<u32>,
    ) -> Result<Option<u32>, ReadError>
        ensures noted { OnOk result (Notes self.old self.new number alone) }
        ensures stands { IfOk result (λ found. IfSome found (λ first.
            get nat_cmp self.new.numbers number ≡ Some (Some first))) }
        ensures same { IfOk result (λ found. IfSome found (λ first. IsSome (slice_get types.now first)
            → alone_at types.now first ≡ Some group.now)) }
        ensures other { IfOk result (λ found. found ≡ None → IsUnlike self.new types.now number group.now) }
        ensures short { IfErr result (λ e. e.cause ≡ OutOfMemory) }
    {
        let Some(first) = self.note(number, alone)? else {
            return Ok(None);
        };
        if is_another(types, first, group) {
            return Ok(None);
        }
        Ok(Some(first))
    }

    /// The index that stands for a group among the others: that of the first that is equal, or else this one, by
    /// which it is kept. It refuses want of memory alone.
    fn find_other(&mut self, group: RolledGroup, own: u32) -> Result<u32, ReadError>
        ensures first { IfOk result (λ first. first ≡ unwrap_or (get rolled_cmp self.old.others group) own) }
        ensures kept { IfOk result (λ first. Updates rolled_cmp self.old.others self.new.others group (Some first)) }
        ensures numbers { self.new.numbers ≡ self.old.numbers }
        ensures short { IfErr result (λ e. e.cause ≡ OutOfMemory) }
    {
        let Ok(entry) = self.others.entry(group) else {
            return Err(ReadError::out_of_memory(0));
        };
        let first = entry.or_insert(own);
        Ok(*first)
    }

    /// The index that stands for that of the first type of a group: that of the first group that is equal, or its
    /// own, by which it is kept. These are the types of the module. It refuses want of memory alone.
    fn find(&mut self, types: &[SubType], group: RolledGroup, own: u32) -> Result<u32, ReadError>
        ensures kept { IfOk result (λ first. IsMixed group
            → Keeps self.old self.new types.now types.now group.types.items own first) }
        ensures short { IfErr result (λ e. e.cause ≡ OutOfMemory) }
    {
        let found = self.find_alone(types, group.types.as_slice(), group.mixed, None)?;
        match found {
            Some(first) => Ok(first),
            None => self.find_other(group, own),
        }
    }
}

/// The types that a module declares.
#[derive(Drop)]
pub struct TypeSection {
    /// The types. They name each type by the index of the one that stands for it.
    pub types: Vec<SubType>,
    /// Of each type the index of the one that stands for it: the first of those that are equal.
    pub canonical: Vec<u32>,
    /// The recursion groups that the types stand in, one behind another.
    pub groups: Vec<RecGroup>,
}

impl TypeSection {
    /// No types. It takes no memory.
    pub fn new(alloc: Global) -> TypeSection
        ensures types { result.types.items ≡ [] }
        ensures canonical { result.canonical.items ≡ [] }
        ensures groups { result.groups.items ≡ [] }
    {
        TypeSection {
            types: Vec::new(alloc),
            canonical: Vec::new(alloc),
            groups: Vec::new(alloc),
        }
    }

    /// Makes room for so many types. It refuses want of memory alone.
    fn make_room_for_types(
        &mut self,
        reader: &BinaryReader<'_>,
        count: u32,
    ) -> Result<(), ReadError>
        ensures types { self.new.types.items ≡ self.old.types.items }
        ensures canonical { self.new.canonical.items ≡ self.old.canonical.items }
        ensures groups { self.new.groups ≡ self.old.groups }
        ensures short { IfErr result (λ e. e.cause ≡ OutOfMemory) }
    {
        make_room(&mut self.types, reader, count)?;
        make_room(&mut self.canonical, reader, count)
    }

    /// Makes room for so many groups of one type. It refuses want of memory alone.
    fn make_room(&mut self, reader: &BinaryReader<'_>, count: u32) -> Result<(), ReadError>
        ensures types { self.new.types.items ≡ self.old.types.items }
        ensures canonical { self.new.canonical.items ≡ self.old.canonical.items }
        ensures groups { self.new.groups.items ≡ self.old.groups.items }
        ensures short { IfErr result (λ e. e.cause ≡ OutOfMemory) }
    {
        self.make_room_for_types(reader, count)?;
        make_room(&mut self.groups, reader, count)
    }

    /// Says of so many types, behind those that are there, that those from this index on stand for them. It refuses want
    /// of memory alone: where an index would be past 2^32, at the offset.
    fn name(&mut self, first: u32, count: u32, offset: u64) -> Result<(), ReadError>
        ensures canonical { OnOk result (self.new.canonical.items
            ≡ self.old.canonical.items ++ range_with_len first count) }
        ensures types { self.new.types ≡ self.old.types }
        ensures groups { self.new.groups ≡ self.old.groups }
        ensures short { IfErr result (λ e. e.cause ≡ OutOfMemory) }
    {
        for place in 0..count {
            // No index is left for such a type.
            let Some(index) = first.checked_add(place) else {
                return Err(ReadError::out_of_memory(offset));
            };
            push(&mut self.canonical, index)?;
        }
        Ok(())
    }

    /// Reads the types of a group, so many, behind those that are there. The index stands for that of the first. It
    /// refuses what the reads of the types refuse, and want of memory.
    fn declare(
        &mut self,
        alloc: Global,
        reader: &mut BinaryReader<'_>,
        first: u32,
        count: u32,
    ) -> Result<(), ReadError>
        ensures types { OnOk result ((read : List SubType)
            × HasTypes self.old.canonical.items (Indices first) count reader.old.left read reader.new.left
            × (self.new.types.items ≡ self.old.types.items ++ read)) }
        ensures canonical { OnOk result (self.new.canonical.items
            ≡ self.old.canonical.items ++ range_with_len first count) }
        ensures groups { self.new.groups ≡ self.old.groups }
        ensures refused { IfErr result (λ e. e.cause ≢ OutOfMemory
            → HasNoTypes self.old.canonical.items (Indices first) count reader.old.left) }
    {
        let offset = reader.offset();
        self.make_room_for_types(reader, count)?;
        let names = CanonicalTypes::in_group(&self.canonical, GroupNames::Indices(first));
        read_so_many(alloc, reader, names, count, &mut self.types)?;
        self.name(first, count, offset)?;
        Ok(())
    }

    /// For how many types another one stands.
    pub(crate) fn merged(&self) -> usize {
        let own = (0..self.canonical.len()).zip(self.canonical.iter());
        own.filter(|(index, first)| *index != **first as usize)
            .count()
    }

    /// Declares a type that is a group alone, and names none of its own group, behind those that are there. Its own
    /// index is this one. Where another group has its number, it is kept among the others, and read again. It refuses
    /// want of memory alone, where the type is read there.
    fn declare_alone(
        &mut self,
        alloc: Global,
        again: &mut BinaryReader<'_>,
        ty: SubType,
        own: u32,
        groups: &mut Groups,
    ) -> Result<(), ReadError>
        ensures read { OnOk result ((before : List Group) (rest : List ℕ) → HasRead self.old groups.old before
            → own ≡ length self.old.canonical.items
            → ReadsAnyhow self.old.canonical.items again.old.left ty rest
            → HasReadTypes before 1 again.old.left rest self.old self.new groups.new) }
        ensures refused { IfErr result (λ e. e.cause ≢ OutOfMemory
            → ReadsNoType self.old.canonical.items again.old.left ty) }
    {
        let number = mix_types(slice::from_ref(&ty));
        let found = groups.find_alone(&self.types, slice::from_ref(&ty), number, Some(own))?;
        match found {
            Some(first) => {
                push(&mut self.types, ty)?;
                push(&mut self.canonical, first)
            }
            None => {
                let group = RolledGroup::of_one(alloc, ty)?;
                let first = groups.find_other(group, own)?;
                self.declare(alloc, again, first, 1)
            }
        }
    }

    /// Reads the types of any group, so many, behind those that are there: first rolled up, and then as they are declared.
    /// The index of the first is this one. It refuses what the reads of the types refuse, and want of memory.
    fn declare_group(
        &mut self,
        alloc: Global,
        reader: &mut BinaryReader<'_>,
        own: u32,
        count: u32,
        groups: &mut Groups,
    ) -> Result<(), ReadError>
        ensures read { OnOk result ((before : List Group) → HasRead self.old groups.old before
            → own ≡ length self.old.canonical.items
            → HasReadTypes before count reader.old.left reader.new.left self.old self.new groups.new) }
        ensures refused { IfErr result (λ e. e.cause ≢ OutOfMemory → (before : List Group)
            → HasRead self.old groups.old before → own ≡ length self.old.canonical.items
            → HasNoRolled before count reader.old.left self.old.canonical.items) }
    {
        let mut again = reader.duplicate();
        let rolled = read_rolled(alloc, reader, &self.canonical, count)?;
        let group = RolledGroup::new(rolled);
        let first = groups.find(&self.types, group, own)?;
        self.declare(alloc, &mut again, first, count)
    }

    /// Reads the types of a group, so many, behind those that are there. The index of the first is this one. It refuses
    /// what the reads of the types refuse, and want of memory.
    fn declare_types(
        &mut self,
        alloc: Global,
        reader: &mut BinaryReader<'_>,
        own: u32,
        count: u32,
        groups: &mut Groups,
    ) -> Result<(), ReadError>
        ensures read { OnOk result ((before : List Group) → HasRead self.old groups.old before
            → own ≡ length self.old.canonical.items
            → HasReadTypes before count reader.old.left reader.new.left self.old self.new groups.new) }
        ensures refused { IfErr result (λ e. e.cause ≢ OutOfMemory → (before : List Group)
            → HasRead self.old groups.old before → own ≡ length self.old.canonical.items
            → HasNoRolled before count reader.old.left self.old.canonical.items) }
    {
        let mut again = reader.duplicate();
        let alone = read_alone(alloc, reader, &self.canonical, count)?;
        match alone {
            Some(ty) => self.declare_alone(alloc, &mut again, ty, own, groups),
            None => self.declare_group(alloc, reader, own, count, groups),
        }
    }

    /// Reads a group behind those that were read. It refuses what the reads of its types refuse, and want of memory: as
    /// that counts also where no index is left for a type.
    fn read_group(
        &mut self,
        alloc: Global,
        reader: &mut BinaryReader<'_>,
        groups: &mut Groups,
    ) -> Result<(), ReadError>
        ensures read { OnOk result ((before : List Group) → HasRead self.old groups.old before
            → HasReadGroup before reader.old.left reader.new.left self.new groups.new) }
        ensures refused { IfErr result (λ e. e.cause ≢ OutOfMemory → (before : List Group)
            → HasRead self.old groups.old before → HasNoGroup before reader.old.left) }
    {
        let offset = reader.offset();
        // No index is left for its first type.
        let Ok(own) = u32::try_from(self.canonical.len()) else {
            return Err(ReadError::out_of_memory(offset));
        };
        let explicit = read_mark(reader, 0x4e)?;
        let count = read_count(reader, explicit)?;
        self.declare_types(alloc, reader, own, count, groups)?;
        push(
            &mut self.groups,
            RecGroup {
                count,
                explicit,
                offset,
            },
        )?;
        Ok(())
    }
}

/// Reads a type that is a group alone, where a group has so many, and names none of its own group. Other groups aren't
/// read. It refuses want of memory alone.
fn read_alone(
    alloc: Global,
    reader: &mut BinaryReader<'_>,
    canonical: &[u32],
    count: u32,
) -> Result<Option<SubType>, ReadError>
    ensures read { IfOk result (λ found. IfSome found (λ ty. ReadsAnyhow canonical.now reader.old.left ty
        reader.new.left)) }
    ensures one { IfOk result (λ found. IsSome found → count ≡ 1) }
    ensures unread { IfOk result (λ found. found ≡ None → reader.new ≡ reader.old) }
    ensures short { IfErr result (λ e. e.cause ≡ OutOfMemory) }
{
    if count != 1 {
        return Ok(None);
    }
    // By no such index a type can be named.
    let names = CanonicalTypes::in_group(canonical, GroupNames::Indices(u32::MAX));
    let mut ahead = reader.duplicate();
    match read_sub_type(alloc, &mut ahead, names) {
        Ok(ty) => {
            *reader = ahead;
            Ok(Some(ty))
        }
        Err(error) => match error.cause {
            Cause::OutOfMemory => Err(error),
            _ => Ok(None),
        },
    }
}

/// Reads how many types a group has, which is written as a list or not.
fn read_count(reader: &mut BinaryReader<'_>, explicit: bool) -> Result<u32, ReadError>
    ensures read { IfOk result (λ count. group_count explicit reader.old.left ≡ Some (count, reader.new.left)) }
    ensures refused { OnErr result (group_count explicit reader.old.left ≡ None) }
{
    if explicit {
        return reader.read_var_u32();
    }
    Ok(1)
}

/// Reads so many types of a group, rolled up, where these stand for the types before it. It refuses what the reads of the
/// types refuse, and want of memory.
fn read_rolled(
    alloc: Global,
    reader: &mut BinaryReader<'_>,
    canonical: &[u32],
    count: u32,
) -> Result<Vec<SubType>, ReadError>
    ensures read { IfOk result (λ types. HasTypes canonical.now Places count reader.old.left types.items
        reader.new.left) }
    ensures refused { IfErr result (λ e. e.cause ≢ OutOfMemory
        → HasNoTypes canonical.now Places count reader.old.left) }
{
    let mut types = list_for(alloc, reader, count)?;
    let names = CanonicalTypes::in_group(canonical, GroupNames::Places);
    read_so_many(alloc, reader, names, count, &mut types)?;
    Ok(types)
}

/// Reads the types of a module, group by group. It refuses what the reads of types refuse, and want of memory: as that
/// count also more types than 2^32.
pub fn read_types(alloc: Global, reader: &mut BinaryReader<'_>) -> Result<TypeSection, ReadError>
    ensures read { IfOk result (λ section. AreTypes reader.old.left section.types.items section.canonical.items
        section.groups.items reader.new.left) }
    ensures refused { IfErr result (λ e. e.cause ≢ OutOfMemory → AreNoTypes reader.old.left) }
{
    let count = reader.read_var_u32()?;
    let mut section = TypeSection::new(alloc);
    let mut groups = Groups::new(alloc);
    section.make_room(reader, count)?;
    for _ in 0..count {
        section.read_group(alloc, reader, &mut groups)?;
    }
    Ok(section)
}
