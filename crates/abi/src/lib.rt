// The entry points for C, as include/scrieve.h declares them. An answer is four numbers, or five where there is a span or a record, of which as many are handed out as fit.
#![tactic(auto)]

ghost use Rattle.std.specs.Prelude.{◌≡◌, length};
ghost use Rattle.abi.specs.Told.{CheckTold, ExtTold, JoinTold, LeanTold, ListTold, MakeTold, MemberTold, SplitTold, ValueTold, given_in, part_answer, part_over, record_in, span_in, told_in, told_wide};
ghost use Rattle.answers.specs.Numbers.{as_paper};
ghost use Rattle.members.specs.Looked.{sought_at};
ghost use Rattle.pairs.specs.Lean.{size_over};
ghost use Rattle.paper.specs.rules.Answer.{inside, report_as_paper};
ghost use Rattle.paper.specs.rules.Size.{size_of};
ghost use Rattle.values.specs.Given.{found_as_paper, given_as_paper, refused_as};

use answers::{
    Numbers, of_checked, of_extended, of_found, of_joined, of_leaned, of_made, of_parted,
    of_report, of_sized, of_wrote,
};
use handed::{high_of, numbers_of, sixteen_of, span_in, span_numbers, within_34};
use lean::Lying;
use paper::{NameOff, Report, TypeNo};
use values::{MemberSpan, MemberValue};

// The four numbers, in the first places of a lent slice.
fn tell(n: Numbers, answer: &mut [u32])
    ensures { answer.new ≡ told_in (as_paper n) answer.old }
{
    let places = answer.len();
    if places == 0 {
        return;
    }
    answer[0] = n.number;
    if places == 1 {
        return;
    }
    answer[1] = n.inner;
    if places == 2 {
        return;
    }
    answer[2] = n.t;
    if places == 3 {
        return;
    }
    answer[3] = n.p;
}

// The same, and a fifth: the high word of a span's first bit, or a record's bytes.
fn tell_wide(n: Numbers, high: u32, answer: &mut [u32])
    ensures { answer.new ≡ told_wide (as_paper n) high answer.old }
{
    tell(n, answer);
    if answer.len() < 5 {
        return;
    }
    answer[4] = high;
}

// A value: its numbers, and its sixteen bytes where there is room for them. One caller, so that it is compiled in place: who reads a million
// records calls nothing else.
fn give(v: MemberValue, answer: &mut [u32], value: &mut [u8])
    ensures { ValueTold (given_as_paper v) answer.old value.old answer.new value.new }
{
    let from = v.from;
    let bytes = sixteen_of(v);
    tell_wide(numbers_of(v), high_of(from), answer);
    words::lay(value, 0, &bytes);
}

// 34, with the table's report inside.
fn refuse(r: Report, answer: &mut [u32], value: &mut [u8])
    ensures { ValueTold (refused_as (inside 34 (report_as_paper r))) answer.old value.old answer.new value.new }
{
    tell_wide(within_34(of_report(r)), 0, answer);
    words::lay(value, 0, &[0u8; 16]);
}

// A span, in the first places of a lent slice.
fn put_span(found: MemberSpan, span: &mut [u32])
    ensures { span.new ≡ span_in (found_as_paper found) span.old }
{
    let from = found.from;
    tell_wide(span_numbers(found), high_of(from), span);
}

// Where the name at an offset lies, or that there is none.
fn named(blob: &[u8], at: NameOff) -> Numbers
    ensures { as_paper result ≡ part_answer blob.now at.0 }
{
    let part = header::part(blob, at);
    let mut number: u32 = 0;
    if header::nameless(blob, at) {
        number = 1;
    }
    Numbers {
        number,
        inner: 0,
        t: part.start.0,
        p: part.length,
    }
}

// The same of two tables, one on the other, with 1 inside where the second blob holds it.
fn named_leaning(base: &[u8], own: &[u8], at: NameOff) -> Numbers
    ensures { as_paper result ≡ part_over base.now own.now at.0 }
{
    match lean::part_leaning(base, own, at) {
        Some(Lying::InBase(part)) => Numbers {
            number: 0,
            inner: 0,
            t: part.start.0,
            p: part.length,
        },
        Some(Lying::InOwn(part)) => Numbers {
            number: 0,
            inner: 1,
            t: part.start.0,
            p: part.length,
        },
        None => Numbers {
            number: 1,
            inner: 0,
            t: 0,
            p: 0,
        },
    }
}

// The check of a blob.
#[unsafe(no_mangle)]
pub extern "C" fn scrieve_check(
    blob: &[u8],
    index: &mut [u32],
    work: &mut [u32],
    answer: &mut [u32],
)
    ensures { CheckTold blob.now (length index.old) (length work.old) answer.old index.new work.new answer.new }
{
    tell(of_checked(gate::check(blob, index, work)), answer);
}

// The size of a type, by the index that a check has left.
#[unsafe(no_mangle)]
pub extern "C" fn scrieve_size(blob: &[u8], index: &[u32], t: u32, answer: &mut [u32])
    ensures { answer.new ≡ told_in (size_of blob.now index.now t) answer.old }
{
    tell(of_sized(sizes::size(blob, index, TypeNo(t))), answer);
}

// The name at an offset: where in the blob it begins, and how many bytes it has.
#[unsafe(no_mangle)]
pub extern "C" fn scrieve_name(blob: &[u8], offset: u32, answer: &mut [u32])
    ensures { answer.new ≡ told_in (part_answer blob.now offset) answer.old }
{
    tell(named(blob, NameOff(offset)), answer);
}

// The join of two blobs.
#[unsafe(no_mangle)]
pub extern "C" fn scrieve_join(
    a: &[u8],
    b: &[u8],
    index: &mut [u32],
    work: &mut [u32],
    out: &mut [u8],
    answer: &mut [u32],
)
    ensures { JoinTold a.now b.now (length index.old) (length work.old) out.old answer.old index.new work.new out.new answer.new }
{
    tell(of_joined(join::join(a, b, index, work, out)), answer);
}

// A joined table taken apart behind so many types and string bytes.
#[unsafe(no_mangle)]
pub extern "C" fn scrieve_split(
    blob: &[u8],
    types: u32,
    strings: u32,
    index: &mut [u32],
    work: &mut [u32],
    first: &mut [u8],
    second: &mut [u8],
    answer: &mut [u32],
)
    ensures { SplitTold blob.now types strings (length index.old) (length work.old) first.old second.old answer.old index.new work.new first.new second.new answer.new }
{
    let at = TypeNo(types);
    let parted = split::split(blob, at, NameOff(strings), index, work, first, second);
    tell(of_parted(parted), answer);
}

// A table written out as its list.
#[unsafe(no_mangle)]
pub extern "C" fn scrieve_list(
    blob: &[u8],
    index: &mut [u32],
    work: &mut [u32],
    out: &mut [u8],
    answer: &mut [u32],
)
    ensures { ListTold blob.now (length index.old) (length work.old) out.old answer.old index.new work.new out.new answer.new }
{
    tell(of_wrote(list::write(blob, index, work, out)), answer);
}

// A list read back as its table.
#[unsafe(no_mangle)]
pub extern "C" fn scrieve_make(
    list: &[u8],
    index: &mut [u32],
    work: &mut [u32],
    bytes: &mut [u8],
    out: &mut [u8],
    answer: &mut [u32],
)
    ensures { MakeTold list.now (length index.old) (length work.old) (length bytes.old) out.old answer.old index.new work.new bytes.new out.new answer.new }
{
    tell(of_made(list::read(list, index, work, bytes, out)), answer);
}

// The check of a .BTF.ext section beside its table.
#[unsafe(no_mangle)]
pub extern "C" fn scrieve_check_ext(
    blob: &[u8],
    section: &[u8],
    index: &mut [u32],
    work: &mut [u32],
    answer: &mut [u32],
)
    ensures { ExtTold blob.now section.now (length index.old) (length work.old) answer.old index.new work.new answer.new }
{
    tell(
        of_extended(ext::check_ext(blob, section, index, work)),
        answer,
    );
}

// A record of such a section: where it begins, and how many bytes of it are handed out.
#[unsafe(no_mangle)]
pub extern "C" fn scrieve_ext_record(section: &[u8], part: u32, k: u32, answer: &mut [u32])
    ensures { answer.new ≡ record_in section.now part k answer.old }
{
    let bytes = groups::record_bytes(section, part, k);
    let long = bytes.len() as u32;
    let found = groups::record_at(section, part, k);
    tell_wide(of_found(found), long, answer);
}

// Where a member's bits lie, by the index that a check has left.
#[unsafe(no_mangle)]
pub extern "C" fn scrieve_span(blob: &[u8], index: &[u32], t: u32, m: u32, span: &mut [u32])
    ensures { span.new ≡ span_in (sought_at blob.now index.now t m) span.old }
{
    put_span(members::span_of(blob, index, TypeNo(t), m), span);
}

// The value of such a span in a record's bytes.
#[unsafe(no_mangle)]
pub extern "C" fn scrieve_value(span: &[u32], bytes: &[u8], answer: &mut [u32], value: &mut [u8])
    ensures { ValueTold (given_in span.now bytes.now) answer.old value.old answer.new value.new }
{
    give(values::value_of(span_in(span), bytes), answer, value);
}

// A member of a record, by a table that is checked in the same call: the check, the span, the value.
#[unsafe(no_mangle)]
pub extern "C" fn scrieve_member(
    blob: &[u8],
    index: &mut [u32],
    work: &mut [u32],
    t: u32,
    m: u32,
    bytes: &[u8],
    answer: &mut [u32],
    value: &mut [u8],
)
    ensures { MemberTold blob.now (length index.old) (length work.old) t m bytes.now answer.old value.old index.new work.new answer.new value.new }
{
    match gate::check(blob, index, work) {
        Err(r) => refuse(r, answer, value),
        Ok(_) => {
            let mut span = [0u32; 5];
            put_span(members::span_of(blob, index, TypeNo(t), m), &mut span);
            scrieve_value(&span, bytes, answer, value);
        }
    }
}

// The check of a table that leans on a base.
#[unsafe(no_mangle)]
pub extern "C" fn scrieve_check_leaning<'a>(
    base: &'a [u8],
    own: &'a [u8],
    index: &mut [u32],
    work: &mut [u32],
    answer: &mut [u32],
)
    ensures { LeanTold base.now own.now (length index.old) (length work.old) answer.old index.new work.new answer.new }
{
    tell(
        of_leaned(lean::check_leaning(base, own, index, work)),
        answer,
    );
}

// The size of a type of either, by the index that such a check has left.
#[unsafe(no_mangle)]
pub extern "C" fn scrieve_size_leaning<'a>(
    base: &'a [u8],
    before: u32,
    own: &'a [u8],
    index: &[u32],
    t: u32,
    answer: &mut [u32],
)
    ensures { answer.new ≡ told_in (size_over base.now before own.now index.now t) answer.old }
{
    let told = lean::size_leaning(base, before, own, index, TypeNo(t));
    tell(of_sized(told), answer);
}

// The name at an offset of both: which blob holds it, where it begins there, and how many bytes it has.
#[unsafe(no_mangle)]
pub extern "C" fn scrieve_name_leaning(base: &[u8], own: &[u8], offset: u32, answer: &mut [u32])
    ensures { answer.new ≡ told_in (part_over base.now own.now offset) answer.old }
{
    tell(named_leaning(base, own, NameOff(offset)), answer);
}
