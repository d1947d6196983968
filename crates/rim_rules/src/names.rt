//! What names what: the names of files, launches and items, and the kinds of items.
ghost use Rattle.std.specs.Prelude.{◌≡◌, map, position};
ghost use Rattle.std.specs.List.{list_any};
ghost use Rattle.toml.specs.View.{view};
ghost use Rattle.rim_rules.specs.Names.{asks_for, file_at, has_asked, has_file, is_at_role, is_named, kinds_once, lacks_file, lacks_its_file, name_of, needs_file, repeats, role_at, role_count, share_names};

use crate::kind::kind_of_word;
use crate::value::{array, text, truth};
use rim_launch::Role;
use toml::Value;

/// The name in a table, or no text.
pub fn name(table: &Value) -> &str
    ensures { result.now ≡ name_of (view table.now) }
{
    text(table, "name")
}

/// Whether one of the tables has this name.
fn is_any_named(tables: &[Value], wanted: &str) -> bool
    ensures { result ≡ list_any (λ t. is_named wanted.now (view t)) tables.now }
{
    tables.iter().any(|table| name(table) == wanted)
}

/// Whether two of the tables share a name.
pub fn share_names(tables: &[Value]) -> bool
    ensures { result ≡ share_names (map view tables.now) }
{
    'tables: for i in 0..tables.len() {
        if is_any_named(&tables[i + 1..], name(&tables[i])) {
            return true;
        }
    }
    false
}

/// What an item is for. One without the word of a kind, which is a fault, is looked at as a raw one.
pub fn role(item: &Value) -> Role
    ensures { result ≡ role_at (view item.now) }
{
    kind_of_word(text(item, "kind")).unwrap_or(Role::Raw)
}

fn has_role(item: &Value, wanted: Role) -> bool
    ensures { result ≡ is_at_role wanted (view item.now) }
{
    role(item) == wanted
}

/// How many items are for this.
fn role_count(items: &[Value], wanted: Role) -> usize
    ensures { result ≡ role_count wanted (map view items.now) }
{
    items.iter().filter(|item| has_role(item, wanted)).count()
}

/// Whether at most one item is a kernel, at most one an initrd, and at most one a devicetree.
fn kinds_once(items: &[Value]) -> bool
    ensures { result ≡ kinds_once (map view items.now) }
{
    role_count(items, Role::Kernel) <= 1
        && role_count(items, Role::Initrd) <= 1
        && role_count(items, Role::Dtb) <= 1
}

/// Whether a devicetree among the items has a key that is true.
pub fn asks_for(items: &[Value], key: &str) -> bool
    ensures { result ≡ asks_for key.now (map view items.now) }
{
    items.iter().any(|item| has_role(item, Role::Dtb) && truth(item, key, false))
}

/// Whether a launch has the initrd and the RAM whose places its devicetree is to have.
pub fn has_asked(launch: &Value) -> bool
    ensures { result ≡ has_asked (view launch.now) }
{
    let items = array(launch, "item");
    (role_count(items, Role::Initrd) > 0 || !asks_for(items, "initrd"))
        && (!array(launch, "ram").is_empty() || !asks_for(items, "memory"))
}

/// Whether two items of a launch share a name, or a kind other than raw and unknown.
pub fn repeats(launch: &Value) -> bool
    ensures { result ≡ repeats (view launch.now) }
{
    let items = array(launch, "item");
    share_names(items) || !kinds_once(items)
}

/// Whether a file has the name that an item gives as its file.
fn has_file(files: &[Value], item: &Value) -> bool
    ensures { result ≡ has_file (map view files.now) (view item.now) }
{
    is_any_named(files, text(item, "file"))
}

/// Whether an item for this needs a file: unknown content comes from none.
fn needs_file(role: Role) -> bool
    ensures { result ≡ needs_file role }
{
    role != Role::Unknown
}

/// Whether an item needs a file and names none.
pub fn lacks_its_file(files: &[Value], item: &Value) -> bool
    ensures { result ≡ lacks_its_file (map view files.now) (view item.now) }
{
    needs_file(role(item)) && !has_file(files, item)
}

/// Whether an item of a launch needs a file and names none.
pub fn lacks_file(files: &[Value], launch: &Value) -> bool
    ensures { result ≡ lacks_file (map view files.now) (view launch.now) }
{
    any_without(files, array(launch, "item"))
}

fn any_without(files: &[Value], items: &[Value]) -> bool
    ensures { result ≡ list_any (λ i. lacks_its_file (map view files.now) (view i)) items.now }
{
    items.iter().any(|item| lacks_its_file(files, item))
}

/// The number of the file that an item names; 0 for none.
pub fn file_number(files: &[Value], item: &Value) -> usize
    ensures { result ≡ file_at (map view files.now) (view item.now) }
{
    position_of(files, text(item, "file").as_bytes()).unwrap_or(0)
}

/// The place of the first table of this name.
pub fn position_of(tables: &[Value], wanted: &[u8]) -> Option<usize>
    ensures { result ≡ position (λ t. is_named wanted.now (view t)) tables.now }
{
    tables
        .iter()
        .position(|table| name(table).as_bytes() == wanted)
}
