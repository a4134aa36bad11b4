ghost use Rattle.std.specs.Prelude.{◌≡◌, ◌<◌, ◌≤◌, ◌-◌, true, false, length, slice_index};
ghost use Rattle.ql_base.specs.IdLists.{IsAscending, has_id};

use ql_base::IdSet;

/// Whether a set has an id.
///
/// It is looked for at the index `next` first, which becomes that of the next greater id: ids that are looked up in
/// ascending order are mostly found without a search.
pub(crate) fn has_next(set: &IdSet, next: &mut usize, id: u32) -> bool
    ensures { result ≡ has_id set.now id }
{
    has_in(set.items(), next, id)
}

fn has_in(ids: &[u32], next: &mut usize, id: u32) -> bool
    requires { IsAscending ids.now }
    ensures { result ≡ has_id ids.now id }
{
    if is_at(ids, *next, id) {
        *next += 1;
        return true;
    }
    if is_between(ids, *next, id) {
        return false;
    }
    search(ids, next, id)
}

fn is_at(ids: &[u32], at: usize, id: u32) -> bool
    ensures found { result ≡ true → has_id ids.now id ≡ true }
    ensures inside { result ≡ true → at < length ids.now }
{
    at < ids.len() && ids[at] == id
}

// Whether an id belongs at an index, and isn't there.
fn is_between(ids: &[u32], at: usize, id: u32) -> bool
    requires { IsAscending ids.now }
    ensures { result ≡ true → has_id ids.now id ≡ false }
{
    if at > ids.len() {
        return false;
    }
    is_after(ids, at, id) && is_before(ids, at, id)
}

fn is_after(ids: &[u32], at: usize, id: u32) -> bool
    requires { at ≤ length ids.now }
    ensures { result ≡ true → 0 < at → slice_index ids.now (at - 1) < id }
{
    at == 0 || ids[at - 1] < id
}

fn is_before(ids: &[u32], at: usize, id: u32) -> bool
    requires { at ≤ length ids.now }
    ensures { result ≡ true → at < length ids.now → id < slice_index ids.now at }
{
    at == ids.len() || id < ids[at]
}

fn search(ids: &[u32], next: &mut usize, id: u32) -> bool
    requires { IsAscending ids.now }
    ensures { result ≡ has_id ids.now id }
{
    match ids.binary_search(&id) {
        Ok(at) => {
            *next = at + 1;
            true
        }
        Err(at) => {
            *next = at;
            false
        }
    }
}
