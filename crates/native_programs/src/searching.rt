//! Places of a text in another.

ghost use Rattle.std.specs.Prelude.{◌≡◌, ◌≤◌, ◌+◌, ◌-◌, length, pos, IfOk};
ghost use Rattle.native_programs.specs.Searching.{found_in, found_back_in, smallest_from, largest_below, stands_at, piece_end};

use flow_text::OutOfMemory;

/// The first place from one on at which a text stands in another; -1 where there is none.
pub(crate) fn found_in(subject: &[u16], sought: &[u16], from: i64) -> Result<i64, OutOfMemory>
    ensures { IfOk result (λ n. n ≡ found_in subject.now sought.now from) }
{
    match first_place(subject, sought, from.unsigned_abs() as usize) {
        Some(place) => number_of(place),
        None => Ok(-1),
    }
}

// The first place from one on at which it stands.
fn first_place(subject: &[u16], sought: &[u16], start: usize) -> Option<usize>
    ensures { result ≡ smallest_from (stands_at subject.now sought.now) start ((length subject.now + 1) - start) }
{
    for place in start..subject.len() + 1 {
        if stands_at(subject, sought, place) {
            return Some(place);
        }
    }
    None
}

/// The last place up to one at which a text stands in another; -1 where there is none.
pub(crate) fn found_back_in(subject: &[u16], sought: &[u16], from: i64) -> Result<i64, OutOfMemory>
    ensures { IfOk result (λ n. n ≡ found_back_in subject.now sought.now from) }
{
    let last = (from.unsigned_abs() as usize).min(subject.len());
    match last_place(subject, sought, last) {
        Some(place) => number_of(place),
        None => Ok(-1),
    }
}

// The last place up to one at which it stands.
fn last_place(subject: &[u16], sought: &[u16], last: usize) -> Option<usize>
    requires { last ≤ length subject.now }
    ensures { result ≡ largest_below (stands_at subject.now sought.now) (last + 1) }
{
    for back in 0..last + 1 {
        if stands_at(subject, sought, last - back) {
            return Some(last - back);
        }
    }
    None
}

// Whether a text stands at a place of another.
fn stands_at(subject: &[u16], sought: &[u16], place: usize) -> bool
    requires { place ≤ length subject.now }
    ensures { result ≡ stands_at subject.now sought.now place }
{
    subject[place..].starts_with(sought)
}

/// Where the piece that begins at a place ends (ECMA-262 15.5.4.14, step 13): before the next separator, which doesn't stand at the end; for
/// an empty one a unit later; or where the text ends.
pub(crate) fn piece_end(subject: &[u16], separator: &[u16], from: i64) -> Result<i64, OutOfMemory>
    ensures { IfOk result (λ n. n ≡ piece_end subject.now separator.now from) }
{
    let first = if separator.is_empty() {
        from.checked_add(1).ok_or(OutOfMemory)?
    } else {
        from
    };
    let found = found_in(subject, separator, first)?;
    if found < 0 {
        number_of(subject.len())
    } else {
        Ok(found)
    }
}

/// A size as a number. One that doesn't fit comes from more than memory holds.
pub(crate) fn number_of(size: usize) -> Result<i64, OutOfMemory>
    ensures { IfOk result (λ n. n ≡ pos size) }
{
    if size < 1 << 62 {
        Ok(size as i64)
    } else {
        Err(OutOfMemory)
    }
}
