//! Bodies with what each operator answers: worked examples of the standard and of upstream's texts.
//!
//! Bodies are parted by blank lines, and each begins with its name behind a `#`. Where a line `--` stands, what is before
//! it are the first lines of a script; else the body is one of a function that takes nothing and gives nothing. A first line
//! `without FLAG` turns on every proposal but this one.
//!
//! Behind an arrow stands what an operator answers: how many operands and frames there are then, or the words of its
//! refusal. Behind a semicolon there may be what it leaves: after a refusal both heights; then the types of the operands,
//! the top last, `?` for one that isn't known; then the innermost frame, `none` where none is open. An operator with a
//! `try` before it is attempted and taken back, and behind a second arrow stands what there is then.

/// Bodies of a few operators.
pub const BODIES: &str = "\
# an addition of nothing
i32.add => type mismatch: expected i32 but nothing on stack

# an addition of two types
i32.const => 1 1; [i32]
i64.const => 2 1; [i32 i64]
i32.add => type mismatch: expected i32, found i64; 1 1; [i32]; block

# an addition in dead code
unreachable => 0 1; []; dead block
i32.add => 1 1; [i32]; dead block

# a choice in dead code
unreachable => 0 1
select => 1 1; [?]

# a choice in dead code of which one type is known
unreachable => 0 1
i64.const => 1 1
i32.const => 2 1
select => 1 1; [i64]

# a reference of dead code in place of a number
unreachable => 0 1
ref.as_non_null => 1 1
i32.eqz => type mismatch: expected i32, found heap type

# a value left at the end of a block
block => 0 2
i32.const => 1 2
end => type mismatch: values remaining on stack at end of block

# an operand of the outer block
i32.const => 1 1
block => 1 2
i32.eqz => type mismatch: expected i32 but nothing on stack

# an if with a result and without an else
i32.const => 1 1
if i32 => 0 2
i32.const => 1 2
end => type mismatch: expected i32 but nothing on stack

# a label that isn't there
br 1 => unknown label: branch depth too large

# the outermost label
br 0 => 0 1

# a branch back with the parameter of its loop
type func ->
type func i32 ->
func 0
--
i32.const => 1 1
loop 1 => 1 2
br 0 => 0 2
end => 0 1
end => 0 0

# a branch back without the parameter of its loop
type func ->
type func i32 ->
func 0
--
i32.const => 1 1
loop 1 => 1 2
drop => 0 2
br 0 => type mismatch: expected i32 but nothing on stack

# a local that isn't set
type func ->
func 0
local 1 ref:func
--
local.get 0 => uninitialized local: 0

# a local that is set in a block, and not behind it
type func ->
func 0
local 1 ref:func
--
block => 0 2
unreachable => 0 2
local.set 0 => 0 2
local.get 0 => 1 2
drop => 0 2
end => 0 1
local.get 0 => uninitialized local: 0

# attempts of an addition and of a return
i64.const => 1 1
i32.const => 2 1; [i64 i32]; block
try i32.add => type mismatch: expected i32, found i64; 0 1; []; block => 2 1; [i64 i32]; block
try return => 0 1; []; dead block => 2 1; [i64 i32]; block

# an attempt of a constant
i64.const => 1 1
i32.const => 2 1
try i32.const => 3 1; [i64 i32 i32]; block => 2 1; [i64 i32]; block

# an array of more elements than there are operands, in dead code
type func ->
type array i32
func 0
--
unreachable => 0 1
array.new_fixed 1 4294967295 => 1 1

# the greatest offset of 32 bits
type func ->
memory
func 0
--
i32.const => 1 1
i32.load offset=4294967295 => 1 1

# an offset of more than 32 bits
type func ->
memory
func 0
--
i32.const => 1 1
i32.load offset=4294967296 => offset out of range: must be <= 2**32

# an alignment of more than the natural one
type func ->
memory
func 0
--
i32.const => 1 1
i32.load align=3 => invalid memop alignment: alignment must not be larger than natural

# an attempt of the end of an if
i32.const => 1 1
if => 0 2
try end => 0 1; []; block => 0 2; []; if

# an attempt of a catch whose tag isn't there
legacy_try => 0 2
try catch 7 => unknown tag 7: tag index out of bounds; 0 2; []; catch => 0 2; []; legacy_try

# an attempt of an else behind locals that were first set in dead code
type func ->
func 0
local 2 ref:func
--
i32.const => 1 1
if => 0 2
unreachable => 0 2
local.set 1 => 0 2
local.set 0 => 0 2
try else => 0 2; []; else => 0 2; []; dead if
local.get 0 => 1 2
local.get 1 => 2 2

# an attempt of a return in dead code
unreachable => 0 1
try return => 0 1; []; dead block => 0 1; []; dead block
i32.add => 1 1

# a table of labels of different numbers of types
block i32 => 0 2
block => 0 3
i32.const => 1 3
i32.const => 2 3
br_table 0 1 => type mismatch: br_table target labels have different number of types

# a table of no labels but the default
i32.const => 1 1
br_table 0 => 0 1

# a choice of references
ref.null func => 1 1
ref.null func => 2 1
i32.const => 3 1
select => type mismatch: select only takes integral types

# a clause that carries an exception to a label around it
type func ->
type func i32 ->
tag 1
func 0
--
block i32 => 0 2
try_table catch:0:0 => 0 3
end => 0 2
i32.const => 1 2
end => 1 1
drop => 0 1
end => 0 0

# a clause whose label takes nothing
type func ->
type func i32 ->
tag 1
func 0
--
block i32 => 0 2
try_table catch:0:1 => type mismatch: catch label must have same number of types as tag

# a choice of two types
select_multi i32 i64 => invalid result arity

# a proposal that is off, and no other
without sign_extension
type func ->
func 0
--
i32.const => 1 1
i32.extend8_s => sign extension operations support is not enabled

# a field of a struct type below
without custom_descriptors
type struct i32
type sub=0 struct i32 i64
type func ->
func 2
--
struct.new_default 1 => 1 1
struct.get 0 0 => 1 1; [i32]

# a field that a struct type above hasn't got
without custom_descriptors
type struct i32
type sub=0 struct i32 i64
type func ->
func 2
--
struct.new_default 0 => 1 1
struct.get 1 1 => type mismatch: expected (ref null (type)), found (ref (type))

# the same with exact types
type struct i32
type sub=0 struct i32 i64
type func ->
func 2
--
struct.new_default 0 => 1 1
struct.get 1 1 => type mismatch: expected (ref null (type)), found (ref (exact type))

# the descriptor of a new struct
type func ->
type desc=2 struct
type describes=1 struct
func 0
--
struct.new_default 2 => 1 1
struct.new_default_desc 1 => 1 1
ref.get_desc 1 => 1 1; [(ref (exact (id 2)))]

# the descriptor of a null reference
type func ->
type desc=2 struct
type describes=1 struct
func 0
--
ref.null 1 => 1 1
ref.get_desc 1 => 1 1; [(ref (id 2))]

# the descriptor of a null reference to nothing
type func ->
type desc=2 struct
type describes=1 struct
func 0
--
ref.null none => 1 1
ref.get_desc 1 => 1 1; [(ref (exact (id 2)))]

# a descriptor in dead code
type func ->
type desc=2 struct
type describes=1 struct
func 0
--
unreachable => 0 1
ref.get_desc 1 => 1 1; [(ref (exact (id 2)))]

# conversions of references in dead code
unreachable => 0 1
any.convert_extern => 1 1
extern.convert_any => 1 1; [?]

# the length of a reference of dead code
unreachable => 0 1
any.convert_extern => 1 1
array.len => type mismatch: expected subtype of array, found any

# control
type func ->
func 0
local 2 ref:func
--
i32.const => 1 1
if => 0 2
nop => 0 2
block i32 => 0 3
i32.const => 1 3
i32.const => 2 3
br_if 0 => 1 3
end => 1 2
loop => 1 3
br 0 => 1 3
local.set 1 => 1 3
local.set 0 => 1 3
local.get 0 => 2 3
local.tee 1 => 2 3
drop => 1 3
end => 1 2
drop => 0 2
else => 0 2
unreachable => 0 2
select => 1 2
return => 0 2
end => 0 1
i32.const => 1 1
if => 0 2
end => 0 1
end => 0 0

# numbers
i64.const => 1 1
i32.const 7 => 2 1
i32.const 7 => 3 1
i32.const 7 => 4 1
i32.const 7 => 5 1
i32.const 7 => 6 1
i32.const 7 => 7 1
i32.const 7 => 8 1
i32.const 7 => 9 1
i32.eqz => 9 1
i32.add => 8 1
i64.const 7 => 9 1

# conversions
i32.const => 1 1
i64.extend_i32_s => 1 1
i32.wrap_i64 => 1 1

# memories
type func ->
memory
func 0
--
memory.size 0 => 1 1
i32.load => 1 1
i32.const => 2 1
i32.store => 0 1
i32.const => 1 1
i32.const => 2 1
i32.const => 3 1
memory.fill 0 => 0 1
i32.const => 1 1
memory.grow 0 => 1 1

# atomic accesses
type func ->
memory
func 0
--
i32.const => 1 1
i32.atomic.load => 1 1
i32.const => 2 1
i32.const => 3 1
i32.atomic.rmw.cmpxchg => 1 1
i32.const => 2 1
i32.atomic.store => 0 1
pause => 0 1

# references
type func ->
func 0
local 2 ref:func
--
ref.null func => 1 1
br_on_null 0 => 1 1
ref.as_non_null => 1 1
local.tee 1 => 1 1
ref.is_null => 1 1
drop => 0 1
local.get 1 => 1 1

# tables
type func ->
table funcref
func 0
--
table.size 0 => 1 1
table.get 0 => 1 1
i32.const => 2 1
table.grow 0 => 1 1
ref.null func => 2 1
table.set 0 => 0 1

# structs and arrays
type func ->
type shared struct mut:i32
type shared array mut:i32
func 0
--
struct.new_default 1 => 1 1
struct.get 1 0 => 1 1
array.new_fixed 2 1 => 1 1
array.len => 1 1

# shared everything
type func ->
type shared struct mut:i32
global i32 mut
func 0
--
i32.const => 1 1
global.atomic.set seq_cst 0 => 0 1
struct.new_default 1 => 1 1
struct.atomic.get acq_rel 1 0 => 1 1

# exceptions
type func ->
type func i32 ->
tag 1
func 0
--
block i32 => 0 2
try_table catch:0:0 => 0 3
i32.const => 1 3
throw 0 => 0 3
end => 0 2
i32.const => 1 2
end => 1 1
drop => 0 1
legacy_try => 0 2
catch 0 => 1 2
drop => 0 2
rethrow 0 => 0 2
end => 0 1
legacy_try => 0 2
unreachable => 0 2
catch_all => 0 2
end => 0 1
legacy_try => 0 2
delegate 0 => 0 1
unreachable => 0 1
throw_ref => 0 1

# continuations
type func ->
type cont 0
fn 0 ref
tag 0
func 0
--
block refnull:1 => 0 2
ref.func 0 => 1 2
cont.new 1 => 1 2
resume 1 on:0:0 => 0 2
ref.null 1 => 1 2
end => 1 1
drop => 0 1
suspend 0 => 0 1";
