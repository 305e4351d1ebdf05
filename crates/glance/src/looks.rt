// One look at a record: what it says of its type beside the states of others, or nothing.
ghost use Rattle.std.specs.Prelude.{◌≡◌, ◌&&◌, ◌||◌, ◌⊎◌, ◌%◌, ◌<◌, eqb};
ghost use Rattle.glance.specs.Glance.{Looks, Glimpsed, Stated, behind, enumerated, fits, is_bytes, is_integer, is_open, members_fit, integer, state_of, through, whole, whole_int};
ghost use Rattle.paper.specs.rules.KindNo as kinds;
ghost use Rattle.paper.specs.rules.Table.{flag_of, kind_of};
ghost use Rattle.paper.specs.terms.Reading.{record_in};

use crate::arrays::array;
use crate::fields::fields;
use crate::protos::{function, prototype};
use crate::stored::{section, variable};
use kindrows::{
    ARRAY, DATASEC, ENUM, ENUM64, FLOAT, FUNC, FUNC_PROTO, FWD, INT, PTR, STRUCT, UNION, VAR,
};
use layout::follows;
use paper::{Order, Place};
use rows::{flag_of, is_alias, kind_of, tail_words};

// What a state says beside 16 times the size: whole bytes; an INT that has no bits but those of its size; a type of which no size is told;
// an alias of such an INT.
pub(crate) const WHOLE: u32 = 1;

pub(crate) const INTEGER: u32 = 2;

pub(crate) const UNSIZED: u32 = 3;

pub(crate) const INTEGER_ALIAS: u32 = 5;

// A FUNC_PROTO itself that names its parameters.
pub(crate) const NAMED: u32 = 6;

// A plain type of which no more is told yet than that, and that no walk over pointers from it is endless.
pub const AWAITING: u32 = 7;

// Whole bytes of an ENUM or an ENUM64, or of an alias of one.
pub(crate) const ENUMERATED: u32 = 8;

// A VAR's. No class from this one on is a plain type's.
pub(crate) const STORED: u32 = 9;

// Any other type's that is not plain.
pub(crate) const NOT_PLAIN: u32 = 10;

// That of eight whole bytes.
pub const POINTER: u32 = 129;

// A record of a kind that is not looked at has this, which is no state.
pub const STRANGE: u32 = 4;

// A state that a later look may change.
pub fn is_open(s: u32) -> bool
    ensures { result ≡ is_open s }
{
    if s == 0 {
        return true;
    }
    s == AWAITING
}

// The state of a type; 0 for a number that has none.
pub fn state_of(work: &[u32], u: u32) -> u32
    ensures { result ≡ state_of work.now u }
{
    let i = u as usize;
    if work.len() <= i {
        return 0;
    }
    work[i]
}

// That of a plain type's alias; 0 of another.
fn through(s: u32) -> u32
    ensures { result ≡ through s }
{
    let class = s % 16;
    if class == INTEGER {
        return s + 3;
    }
    if STORED <= class {
        return 0;
    }
    if class == NAMED {
        return UNSIZED;
    }
    s
}

// That of what an alias names, or a pointer points at.
pub fn behind_of(work: &[u32], u: u32) -> u32
    ensures { result ≡ behind work.now u }
{
    if u == 0 {
        return UNSIZED;
    }
    through(state_of(work, u))
}

// So many bytes of a class.
fn stated(z: u32, class: u32) -> u32
    requires { class < 16 }
    ensures { Stated z class result }
{
    if 268435456 <= z {
        return 0;
    }
    16 * z + class
}

// So many whole bytes.
pub fn whole_bytes(z: u32) -> u32
    ensures { Stated z whole result }
{
    stated(z, WHOLE)
}

// The same of an ENUM or an ENUM64.
fn enum_bytes(z: u32) -> u32
    ensures { Stated z enumerated result }
{
    stated(z, ENUMERATED)
}

// The same of an INT.
pub fn whole_int(z: u32) -> u32
    ensures { Stated z integer result }
{
    stated(z, INTEGER)
}

// An INT's bits are those of its size, and as many as an array's index has.
pub fn int_whole(word: u32, z: u32) -> bool
    ensures { result ≡ whole_int word z }
{
    if word / 65536 % 256 != 0 {
        return false;
    }
    let width = word % 256;
    match width {
        8 | 16 | 32 | 64 | 128 => width as u64 == 8 * (z as u64),
        _ => false,
    }
}

// A type of a class may begin at a bit offset.
fn starts(class: u32, offset: u32) -> bool
    ensures { result ≡ (is_integer class || (is_bytes class && eqb (offset % 8) 0)) }
{
    if class == WHOLE {
        return offset % 8 == 0;
    }
    if class == INTEGER {
        return true;
    }
    if class == INTEGER_ALIAS {
        return true;
    }
    if class != ENUMERATED {
        return false;
    }
    offset % 8 == 0
}

// A member whose type has a state, at a bit offset, ends by so many bytes.
pub fn fits(s: u32, offset: u32, z: u32) -> bool
    ensures { result ≡ fits s offset z }
{
    if !starts(s % 16, offset) {
        return false;
    }
    (offset as u64) + 8 * ((s / 16) as u64) <= 8 * (z as u64)
}

// The members of a struct or a union without bit fields, by their types' states.
fn members_fit(order: Order, bytes: &[u8], work: &[u32]) -> bool
    requires { flag_of (record_in order bytes.now) ≡ 0 }
    ensures { result ≡ members_fit work.now (record_in order bytes.now) }
{
    let info = words::read(order, bytes, Place(4));
    let size = words::read(order, bytes, Place(8));
    let kind = kind_of(info);
    let n = tail_words(info) / 3;
    let mut before: u32 = 0;
    for i in 0..n {
        let p = 12 + 12 * i;
        let third = p + 8;
        let offset = words::read(order, bytes, Place(third));
        let second = p + 4;
        let u = words::read(order, bytes, Place(second));
        if !fits(state_of(work, u), offset, size) {
            return false;
        }
        if !follows(kind == UNION, before, offset) {
            return false;
        }
        before = offset;
    }
    true
}

// A struct or a union.
fn group(order: Order, bytes: &[u8], work: &[u32]) -> u32
    requires { (kind_of (record_in order bytes.now) ≡ kinds.STRUCT) ⊎ (kind_of (record_in order bytes.now) ≡ kinds.UNION) }
    ensures { (result ≡ 0) ⊎ Looks work.now (record_in order bytes.now) result }
{
    if flag_of(words::read(order, bytes, Place(4))) != 0 {
        return fields(order, bytes, work);
    }
    if !members_fit(order, bytes, work) {
        return AWAITING;
    }
    whole_bytes(words::read(order, bytes, Place(8)))
}

// An INT.
fn int(order: Order, bytes: &[u8], work: &[u32]) -> u32
    requires { kind_of (record_in order bytes.now) ≡ kinds.INT }
    ensures { (result ≡ 0) ⊎ Looks work.now (record_in order bytes.now) result }
{
    let word = words::read(order, bytes, Place(12));
    let z = words::read(order, bytes, Place(8));
    if !int_whole(word, z) {
        return 0;
    }
    whole_int(z)
}

// A pointer.
fn pointer(order: Order, bytes: &[u8], work: &[u32]) -> u32
    requires { kind_of (record_in order bytes.now) ≡ kinds.PTR }
    ensures { (result ≡ 0) ⊎ Looks work.now (record_in order bytes.now) result }
{
    if behind_of(work, words::read(order, bytes, Place(8))) == 0 {
        return 0;
    }
    POINTER
}

// The state that a record gives its type, by its kind.
fn by_kind(order: Order, bytes: &[u8], work: &[u32]) -> u32
    ensures { Glimpsed work.now (record_in order bytes.now) result }
{
    let kind = kind_of(words::read(order, bytes, Place(4)));
    if is_alias(kind) {
        return behind_of(work, words::read(order, bytes, Place(8)));
    }
    match kind {
        STRUCT => group(order, bytes, work),
        UNION => group(order, bytes, work),
        INT => int(order, bytes, work),
        PTR => pointer(order, bytes, work),
        ENUM | ENUM64 => enum_bytes(words::read(order, bytes, Place(8))),
        ARRAY => array(order, bytes, work),
        VAR => variable(order, bytes, work),
        DATASEC => section(order, bytes, work),
        FWD => UNSIZED,
        FUNC_PROTO => prototype(order, bytes, work),
        FUNC => function(order, bytes, work),
        FLOAT => whole_bytes(words::read(order, bytes, Place(8))),
        _ => STRANGE,
    }
}

// The state that a record gives its type, 0 or AWAITING where one that it refers to is open, or STRANGE. What comes most is told by the info word.
pub fn look(order: Order, bytes: &[u8], work: &[u32]) -> u32
    ensures { Glimpsed work.now (record_in order bytes.now) result }
{
    match words::read(order, bytes, Place(4)) {
        // PTR
        0x0200_0000 => pointer(order, bytes, work),
        // TYPEDEF, VOLATILE, CONST, RESTRICT
        0x0800_0000 | 0x0900_0000 | 0x0a00_0000 | 0x0b00_0000 => behind_of(
            work,
            words::read(order, bytes, Place(8)),
        ),
        _ => by_kind(order, bytes, work),
    }
}
