//! Tables, by what they print and tell.

ghost use Rattle.std.specs.Prelude.{◌≡◌, nat_eq, OnSome, IfNone};
ghost use Rattle.std.specs.Map.{set_value};
ghost use Rattle.timed_table.specs.Row.{entries_of, with_value};

use std::alloc::Global;
use std::test::Fail;
use timed_table::Table;

/// A table of two values, of which the second has no time; nothing where memory runs out.
fn sample(alloc: Global) -> Option<Table<u64>> {
    let mut table = Table::new(alloc);
    table.insert(5, 50, Some(40)).ok()?;
    *table.insert_with(8, None, || 0)? = 80;
    Some(table)
}

/// What a table tells of an identifier: how many rows there are, the value, its time, and the first time of all.
fn told(table: &Table<u64>, id: u32) -> (usize, Option<u64>, Option<u64>, Option<(u64, u32)>) {
    (
        table.len(),
        table.get(id).copied(),
        table.time_of(id),
        table.first(),
    )
}

/// Writes the value under an identifier, as a caller learns it.
fn overwrite(table: &mut Table<u64>, id: u32, value: u64) -> Option<()>
    ensures rows { OnSome result (table.new ≡ with_value id value table.old) }
    ensures entries { OnSome result (entries_of table.new ≡ set_value (nat_eq id) (entries_of table.old) value) }
    ensures none { IfNone result (table.new ≡ table.old) }
{
    let slot = table.get_mut(id)?;
    *slot = value;
    Some(())
}

/// Sets the time of an identifier; how many values are due at a moment then, and their sum.
fn due_after(table: &mut Table<u64>, id: u32, time: Option<u64>, moment: u64) -> (usize, u64) {
    table.set_time(id, time);
    let mut count: usize = 0;
    let mut sum: u64 = 0;
    for value in table.due(moment) {
        count = count.saturating_add(1);
        sum = sum.saturating_add(*value);
    }
    (count, sum)
}

/// Whether the second removal of an identifier, and no other, finds nothing.
fn is_removed_once(table: &mut Table<u64>, id: u32, value: u64) -> bool {
    let is_removed = table.remove(id) == Some(value);
    is_removed & table.remove(id).is_none()
}

#[test]
fn follows_its_changes(rt: HostRuntime) -> Result<(), Fail> {
    let mut table = sample(rt.alloc()).ok_or("no memory")?;
    assert!(rt; told(&table, 5) == (2, Some(50), Some(40), Some((40, 5))));
    assert!(rt; overwrite(&mut table, 5, 51).is_some());
    // The identifier, its new time, the moment, how many are due then and their sum.
    let rows = [
        (6, Some(1), 40, (1, 51)),
        (8, Some(40), 39, (0, 0)),
        (8, Some(40), 40, (2, 131)),
        (5, None, 40, (1, 80)),
        (5, Some(10), 39, (1, 51)),
    ];
    for (id, time, moment, due) in rows {
        let told = due_after(&mut table, id, time, moment);
        assert!(rt; told == due, "{id} {moment}");
    }
    assert!(rt; is_removed_once(&mut table, 5, 51));
    assert!(rt; told(&table, 5) == (1, None, None, Some((40, 8))));
    Ok(())
}

/// Whether a table is printed as this.
fn is_printed(alloc: Global, table: &Table<u64>, wanted: &str) -> Option<bool> {
    let text = format!(in alloc; "{table:?}").ok()?;
    Some(text.as_str() == wanted)
}

#[test]
fn prints_its_values_by_identifier(rt: HostRuntime) -> Result<(), Fail> {
    let table = sample(rt.alloc()).ok_or("no memory")?;
    let printed = is_printed(rt.alloc(), &table, "{5: Some(50), 8: Some(80)}");
    assert!(rt; printed == Some(true));
    Ok(())
}
