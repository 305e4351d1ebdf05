// The table in a file, or the one that holds it and the base that it leans on.
use crate::made::count;
use crate::refusals::{base_refused, refused_behind, turned};
use crate::standing::stand;
use answers::of_report;
use files::{READ_LIMIT, Status, read_file};
use lean::check_leaning;
use paper::{FULL_PLACES, LeanError};
use texts::first_of;

// How many bytes the table has that is asked of, and how many types the base has that it leans on, if it leans on one.
#[derive(Clone, Copy)]
pub struct Laid {
    pub len: usize,
    pub base: Option<u32>,
}

// A table of a file, by itself.
fn lay_file(rt: &HostRuntime, file: &[u8], blob: &mut [u8; READ_LIMIT]) -> Result<Laid, Status> {
    let len = read_file(rt, file, blob).ok_or(Status::Failed)?;
    Ok(Laid { len, base: None })
}

// A table is accepted by itself.
fn stands(own: &[u8], index: &mut [u32], work: &mut [u32]) -> bool {
    match gate::check(own, index, work) {
        Ok(_) => true,
        Err(_) => false,
    }
}

// Both are checked, and laid into one table where they are accepted.
fn lay_both<'a>(
    is_all: bool,
    file: &[u8],
    base_file: &[u8],
    base: &'a [u8],
    own: &'a [u8],
    both: &mut [u8; READ_LIMIT],
    index: &mut [u32; FULL_PLACES],
    work: &mut [u32; FULL_PLACES],
) -> Result<Laid, Status> {
    match check_leaning(base, own, index, work) {
        Err(LeanError::BaseRefused(r)) => Err(base_refused(file, base_file, base, of_report(r))),
        Err(LeanError::OrdersDiffer) => Err(turned(file, base)),
        Err(LeanError::Refused(r)) => {
            let is_alone = stands(own, index, work);
            let n = count(base, index);
            Err(refused_behind(
                is_all,
                file,
                base,
                own,
                n,
                is_alone,
                both,
                index,
                of_report(r),
            ))
        }
        Ok(_) => {
            let n = count(base, index);
            let len = stand(base, own, both);
            Ok(Laid { len, base: Some(n) })
        }
    }
}

// Two files are read.
fn lay_files(
    rt: &HostRuntime,
    is_all: bool,
    file: &[u8],
    base_file: &[u8],
    both: &mut [u8; READ_LIMIT],
    index: &mut [u32; FULL_PLACES],
    work: &mut [u32; FULL_PLACES],
) -> Result<Laid, Status> {
    let mut base = [0u8; READ_LIMIT];
    let mut own = [0u8; READ_LIMIT];
    let base_len = read_file(rt, base_file, &mut base).ok_or(Status::Failed)?;
    let own_len = read_file(rt, file, &mut own).ok_or(Status::Failed)?;
    lay_both(
        is_all,
        file,
        base_file,
        first_of(&base, base_len),
        first_of(&own, own_len),
        both,
        index,
        work,
    )
}

// The table that a call is about, in lent bytes: that of a file, or with the name of a base's file the one that holds both. By itself it is
// not checked yet; with a base it is accepted. Whether all types are asked for tells what a refusal is told with. An error is how
// the call has ended without a table.
pub fn lay_table(
    rt: &HostRuntime,
    is_all: bool,
    file: &[u8],
    base_file: &[u8],
    blob: &mut [u8; READ_LIMIT],
    index: &mut [u32; FULL_PLACES],
    work: &mut [u32; FULL_PLACES],
) -> Result<Laid, Status> {
    if base_file.len() == 0 {
        return lay_file(rt, file, blob);
    }
    lay_files(rt, is_all, file, base_file, blob, index, work)
}
