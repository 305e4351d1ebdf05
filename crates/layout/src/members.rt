// Report 15, members: every span ends by the record's end; offsets do not fall in a struct and are 0 in a union.
ghost use Rattle.std.specs.Prelude.{◌≡◌, cond, ◌*◌, ◌<◌, eqb, leb};
ghost use Rattle.spans.specs.Spanned.{member_at, span_as_paper, typed};
ghost use Rattle.layout.specs.Told.{members_told, recalled, span_told};
ghost use Rattle.paper.specs.terms.Reading.{record_in};
ghost use Rattle.paper.specs.rules.Span.{ends_by};

use kindrows::UNION;
use paper::{Place, Sized, TypeNo};
use recall::{base_told, size_at};
use rows::{flag_of, kind_of, tail_words};
use spans::{bit_offset, span_ends, span_with};
use views::{View, record_of};

// The span of a member: of its type's size and base, as the slice tells them, and of its offset word.
fn span_told<'a>(
    base: &'a [u8],
    b: &'a [u8],
    index: &[u32],
    view: View,
    memo: &[u32],
    flag: u32,
    t: TypeNo,
    offset: u32,
) -> Option<(u64, u64)>
    ensures { span_as_paper result ≡ span_told (recalled base.now b.now index.now view memo.now) flag (typed t.0 offset) }
{
    let order = view.order;
    let a = base_told(base, b, index, view, memo, t);
    let under = record_of(base, b, index, view, a);
    match size_at(base, b, index, view, memo, under, a) {
        Sized::Exact(s) => span_with(order, under, flag, offset, s),
        Sized::NoSize => None,
        Sized::Overflow => None,
        Sized::Lost => None,
        Sized::TooFar => None,
    }
}

// The member whose words stand at a place ends by so many bytes.
fn member_ok<'a>(
    base: &'a [u8],
    b: &'a [u8],
    index: &[u32],
    view: View,
    memo: &[u32],
    bytes: &[u8],
    at: Place,
    flag: u32,
    size: u32,
) -> bool
    requires { at.0 < 1000000 }
    ensures { result ≡ ends_by (8 * size) (span_told (recalled base.now b.now index.now view memo.now) flag (member_at view.order bytes.now at.0)) }
{
    let order = view.order;
    let p = at.0;
    let second = p + 4;
    let t = TypeNo(words::read(order, bytes, Place(second)));
    let third = p + 8;
    let offset = words::read(order, bytes, Place(third));
    let span = span_told(base, b, index, view, memo, flag, t, offset);
    span_ends(span, 8 * (size as u64))
}

// An offset behind another in a struct, or any in a union.
pub fn follows(union: bool, before: u32, offset: u32) -> bool
    ensures { result ≡ cond union (eqb 0 offset) (leb before offset) }
{
    if union {
        return offset == 0;
    }
    before <= offset
}

// The members of a struct or a union. The words of the tail are counted, so that nothing is asked of its kind.
pub(crate) fn members_ok<'a>(
    base: &'a [u8],
    b: &'a [u8],
    index: &[u32],
    view: View,
    memo: &[u32],
    bytes: &[u8],
) -> bool
    ensures { result ≡ members_told (recalled base.now b.now index.now view memo.now) (record_in view.order bytes.now) }
{
    let order = view.order;
    let info = words::read(order, bytes, Place(4));
    let size = words::read(order, bytes, Place(8));
    let flag = flag_of(info);
    let kind = kind_of(info);
    let n = tail_words(info) / 3;
    let mut before: u32 = 0;
    for i in 0..n {
        let p = 12 + 12 * i;
        if !member_ok(base, b, index, view, memo, bytes, Place(p), flag, size) {
            return false;
        }
        let third = p + 8;
        let order = view.order;
        let offset = bit_offset(flag, words::read(order, bytes, Place(third)));
        if !follows(kind == UNION, before, offset) {
            return false;
        }
        before = offset;
    }
    true
}
