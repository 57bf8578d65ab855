// Paths, by the names of their places.
ghost use Rattle.std.specs.Prelude.{◌≡◌, ◌↔◌, ◌+◌, ◌≤◌, ◌<◌, [], ◌∷◌, ◌++◌, IsTrue, get_or, take, map, length};
ghost use Rattle.std.specs.Prelude.{IfSome, IsNone, Some, false, slice_get};
ghost use Rattle.std.specs.List.{list_any};
ghost use Rattle.std.specs.Str.{bytes_eq};
ghost use Rattle.indexmap.specs.IndexSet.{spare};
ghost use Rattle.hls_report_text.specs.Content.{path_names};
ghost use Rattle.hls_report_text.specs.WellFormed.{HasShort, with_name};
ghost use Rattle.hls_core_journal.specs.Ways.{names_by};

use hls_chron::Name;
use hls_report_text::Path;
use indexmap::IndexSet;

/// Goes on to a place.
pub fn push(path: &mut Path, place: u16)
    requires { path.old.len < 9 }
    ensures len { path.new.len ≡ path.old.len + 1 }
    ensures places { take path.new.len path.new.names ≡ take path.old.len path.old.names ++ place ∷ [] }
{
    path.names[usize::from(path.len)] = place;
    path.len += 1;
}

/// Whether a name stands at a place.
fn is_at(names: &IndexSet<Name>, place: usize, name: &Name) -> bool
    ensures yes { IsTrue result → (place < length names.now.keys) × (get_or names.now.keys place [] ≡ name.now) }
    ensures no { slice_get names.now.keys place ≡ Some name.now → IsTrue result }
{
    match names.get_index(place) {
        Some(other) => *other == *name,
        None => false,
    }
}

/// The place of a name, if it is there. It is looked for where it is guessed to be, and only then among all.
pub fn place_of(names: &IndexSet<Name>, guess: usize, name: &Name) -> Option<usize>
    ensures found { IfSome result (λ place. (place < length names.now.keys)
        × (get_or names.now.keys place [] ≡ name.now)) }
    ensures none { IsNone result → list_any (bytes_eq name.now) names.now.keys ≡ false }
{
    if is_at(names, guess, name) {
        return Some(guess);
    }
    names.get_index_of(name)
}

/// Puts a name behind others where it is new, into room that is there, and tells its place.
pub fn insert(names: &mut IndexSet<Name>, name: Name) -> usize
    requires { 0 < spare names.old }
    ensures names { names.new.keys ≡ with_name names.old.keys name }
    ensures room { spare names.old ≤ spare names.new + 1 }
    ensures place { slice_get names.new.keys result ≡ Some name }
{
    match names.insert_full(name) {
        Ok((place, _)) => place,
        Err(_) => unreachable!(),
    }
}

/// The name at a place, and nothing where there is none.
pub fn name_at(names: &IndexSet<Name>, place: usize) -> &[u8]
    ensures { result.now ≡ get_or names.now.keys place [] }
{
    match names.get_index(place) {
        Some(name) => name.bytes(),
        None => b"",
    }
}

/// Whether two places have the same name.
fn same_place(names: &IndexSet<Name>, one: u16, other: u16) -> bool
    ensures { IsTrue result ↔ (get_or names.now.keys one [] ≡ get_or names.now.keys other []) }
{
    if one == other {
        return true;
    }
    // the names of a set are apart
    if usize::from(one.max(other)) < names.len() {
        return false;
    }
    name_at(names, usize::from(one)) == name_at(names, usize::from(other))
}

/// Whether places in their order have the same names.
fn same_places(names: &IndexSet<Name>, one: &[u16], other: &[u16]) -> bool
    ensures { IsTrue result ↔ (map (λ place. get_or names.now.keys place []) one.now
        ≡ map (λ place. get_or names.now.keys place []) other.now) }
{
    if one.len() != other.len() {
        return false;
    }
    for i in 0..one.len() {
        if !same_place(names, one[i], other[i]) {
            return false;
        }
    }
    true
}

/// Whether two paths have the same names.
fn same_path(names: &IndexSet<Name>, one: &Path, other: &Path) -> bool
    requires one { one.now.len ≤ 9 }
    requires other { other.now.len ≤ 9 }
    ensures { IsTrue result ↔ (path_names names.now.keys one.now ≡ path_names names.now.keys other.now) }
{
    same_places(
        names,
        &one.names[..usize::from(one.len)],
        &other.names[..usize::from(other.len)],
    )
}

/// Whether two paths have the same names, or both are none.
pub fn same_way(names: &IndexSet<Name>, one: &Option<Path>, other: &Option<Path>) -> bool
    requires one { HasShort one.now }
    requires other { HasShort other.now }
    ensures { IsTrue result ↔ (names_by names.now.keys one.now ≡ names_by names.now.keys other.now) }
{
    match (one, other) {
        (None, None) => true,
        (Some(one), Some(other)) => same_path(names, one, other),
        _ => false,
    }
}
