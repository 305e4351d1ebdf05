// A member's span in numbers of 32 bits, and back: number, size of the type, first bit, bits, and the first bit's high word.
ghost use Rattle.std.specs.Prelude.{◌≡◌, ◌/◌, get_or};
ghost use Rattle.answers.specs.Numbers.{as_paper};
ghost use Rattle.handed.specs.Places.{found_in, found_numbers, known_number};
ghost use Rattle.values.specs.Given.{found_as_paper, sort_number};

use answers::Numbers;
use values::{MemberSpan, Sort};

// The high word of a first bit.
pub fn high_of(from: u64) -> u32
    ensures { result ≡ from / 4294967296 }
{
    (from / 4294967296) as u32
}

fn number_of(sort: Sort) -> u32
    ensures { result ≡ sort_number sort }
{
    match sort {
        Sort::Unsigned => 0,
        Sort::Signed => 1,
        Sort::HighFirst => 35,
        Sort::NoType => 21,
        Sort::NoStruct => 31,
        Sort::NoMember => 32,
        Sort::NoNumber => 33,
    }
}

// A span's first four numbers.
pub fn span_numbers(m: MemberSpan) -> Numbers
    ensures { as_paper result ≡ found_numbers (found_as_paper m) }
{
    let sort = m.sort;
    let number = number_of(sort);
    let low = (m.from % 4294967296) as u32;
    Numbers {
        number,
        inner: m.size,
        t: low,
        p: m.bits,
    }
}

// What a number stands for; any other for a member that has no value.
fn sort_of(number: u32) -> Sort
    ensures { sort_number result ≡ known_number number }
{
    match number {
        0 => Sort::Unsigned,
        1 => Sort::Signed,
        35 => Sort::HighFirst,
        21 => Sort::NoType,
        31 => Sort::NoStruct,
        32 => Sort::NoMember,
        _ => Sort::NoNumber,
    }
}

// A place; 0 where there is none.
fn place(s: &[u32], i: usize) -> u32
    ensures { result ≡ get_or s.now i 0 }
{
    if s.len() <= i {
        return 0;
    }
    s[i]
}

// The span that five places hold. The last is read first: where it is there, so are the others, and nothing more is tested.
pub fn span_in(s: &[u32]) -> MemberSpan
    ensures { found_as_paper result ≡ found_in s.now }
{
    let high = place(s, 4) as u64;
    let bits = place(s, 3);
    let low = place(s, 2) as u64;
    let size = place(s, 1);
    let sort = sort_of(place(s, 0));
    let from = low + 4294967296 * high;
    MemberSpan {
        sort,
        size,
        from,
        bits,
    }
}
