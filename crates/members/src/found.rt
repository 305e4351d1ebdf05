// What is said of a member of a type's record: 31, 32, 33, or where its bits lie.
ghost use Rattle.std.specs.Prelude.{◌≡◌, cond, [], ◌∷◌};
ghost use Rattle.paper.specs.rules.Choice.{member};
ghost use Rattle.paper.specs.rules.KindNo.{STRUCT, UNION};
ghost use Rattle.paper.specs.rules.Span.{base_of, span_of};
ghost use Rattle.paper.specs.rules.Table.{record_at};
ghost use Rattle.paper.specs.terms.Reading.{record_in};
ghost use Rattle.spans.specs.Spanned.{span_as_paper, typed};
ghost use Rattle.values.specs.Given.{found_as_paper, sort_number};
ghost use Rattle.values.specs.Sought.{no_span, sought_in, span_found};
ghost use Rattle.values.specs.Value.{is_numeric, is_signed};
ghost use Rattle.views.specs.Shown.{table_by};

use kindrows::{INT, STRUCT, UNION};
use paper::{Order, Place, TypeNo};
use rows::{flag_of, kind_of, vlen_of};
use spans::{base_record, is_number, member_span};
use values::{MemberSpan, Sort};
use views::{View, record_of};

// No bits, for a reason.
pub(crate) fn no_span(sort: Sort, size: u32) -> MemberSpan
    ensures { found_as_paper result ≡ no_span (sort_number sort) size }
{
    MemberSpan {
        sort,
        size,
        from: 0,
        bits: 0,
    }
}

// A struct or a union.
pub fn is_struct(kind: u32) -> bool
    ensures { result ≡ member kind (STRUCT ∷ UNION ∷ []) }
{
    if kind == STRUCT {
        return true;
    }
    kind == UNION
}

// "an INT signed by encoding 1 only, an enum by its kind_flag".
fn is_signed(order: Order, s: &[u8]) -> bool
    ensures { result ≡ is_signed (record_in order s.now) }
{
    let info = words::read(order, s, Place(4));
    if kind_of(info) == INT {
        return words::read(order, s, Place(12)) / 16777216 % 16 == 1;
    }
    flag_of(info) == 1
}

// Where the bits of a number lie. No number has none, or more than 128.
fn found(size: u32, signed: bool, span: Option<(u64, u64)>) -> MemberSpan
    ensures { found_as_paper result ≡ span_found size signed (span_as_paper span) }
{
    match span {
        None => no_span(Sort::NoNumber, size),
        Some((from, bits)) => {
            if bits == 0 {
                return no_span(Sort::NoNumber, size);
            }
            if 128 < bits {
                return no_span(Sort::NoNumber, size);
            }
            let bits = bits as u32;
            if signed {
                return MemberSpan {
                    sort: Sort::Signed,
                    size,
                    from,
                    bits,
                };
            }
            MemberSpan {
                sort: Sort::Unsigned,
                size,
                from,
                bits,
            }
        }
    }
}

// A member by its type and its offset word, in a record of so many bytes; an array's element with kind_flag 0 and offset 0, in its own bytes.
pub fn numbered<'a>(
    base: &'a [u8],
    b: &'a [u8],
    index: &[u32],
    view: View,
    flag: u32,
    size: u32,
    t: TypeNo,
    offset: u32,
) -> MemberSpan
    ensures { found_as_paper result ≡ cond (is_numeric (base_of (table_by base.now b.now index.now view) t.0)) (span_found size (is_signed (base_of (table_by base.now b.now index.now view) t.0)) (span_of (table_by base.now b.now index.now view) flag (typed t.0 offset))) (no_span 33 size) }
{
    let order = view.order;
    let under = base_record(base, b, index, view, t);
    if !is_number(kind_of(words::read(order, under, Place(4)))) {
        return no_span(Sort::NoNumber, size);
    }
    let signed = is_signed(order, under);
    found(
        size,
        signed,
        member_span(base, b, index, view, flag, t, offset),
    )
}

// A member of a type, by its number.
pub(crate) fn member_in<'a>(
    base: &'a [u8],
    b: &'a [u8],
    index: &[u32],
    view: View,
    t: TypeNo,
    m: u32,
) -> MemberSpan
    ensures { found_as_paper result ≡ sought_in (table_by base.now b.now index.now view) (record_at (table_by base.now b.now index.now view) t.0) m }
{
    let order = view.order;
    let bytes = record_of(base, b, index, view, t);
    let info = words::read(order, bytes, Place(4));
    if !is_struct(kind_of(info)) {
        return no_span(Sort::NoStruct, 0);
    }
    let size = words::read(order, bytes, Place(8));
    if vlen_of(info) <= m {
        return no_span(Sort::NoMember, size);
    }
    let second = 16 + 12 * m;
    let of = TypeNo(words::read(order, bytes, Place(second)));
    let third = 20 + 12 * m;
    let offset = words::read(order, bytes, Place(third));
    numbered(base, b, index, view, flag_of(info), size, of, offset)
}
