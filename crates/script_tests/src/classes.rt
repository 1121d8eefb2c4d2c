//! Worked tables, and each call with its refusals.
ghost use Rattle.std.specs.Prelude.{◌≡◌, ◌<◌, length, IfSome};
ghost use Rattle.class_schema.specs.Lawful.{has_target};

use class_schema::{AddErr, ClassTable, Field, FieldKind, SchemaErr};
use std::alloc::{AllocError, Global};
use world_model::{ClassId, Kind, Ready};

const OBJECT: ClassId = ClassId(0);

// The class of a name, if there is one.
fn class(table: &ClassTable, name: &str) -> Option<ClassId>
    ensures { IfSome result (λ id. id.0 < length table.now.classes) }
{
    let id = table.find_class(name)?;
    if table.has_class(id) { Some(id) } else { None }
}

fn is_known(table: &ClassTable, kind: FieldKind) -> bool
    ensures { result ≡ has_target (length table.now.classes) kind }
{
    match kind {
        FieldKind::Ref(class) => table.has_class(class),
        FieldKind::Weak => true,
        FieldKind::Int => true,
    }
}

// What adding a field to the class of a name answers; `NoParent` where there is no such class.
fn add(
    table: &mut ClassTable,
    line: u32,
    name: &str,
    field: &str,
    kind: FieldKind,
    count: u32,
) -> Result<(), AddErr> {
    let unknown = Err(AddErr::Schema(SchemaErr::NoParent));
    let Some(id) = class(table, name) else {
        return unknown;
    };
    if !is_known(table, kind) || count == 0 || count > 64 {
        return unknown;
    }
    table.add_field(line, id, field, kind, count)
}

fn field(table: &ClassTable, name: &str, field: &str) -> Option<Field> {
    let id = class(table, name)?;
    table.find_field(id, field)
}

fn kind(table: &ClassTable, name: &str) -> Option<Kind> {
    let id = class(table, name)?;
    Some(table.kind(id))
}

fn is_a(table: &ClassTable, name: &str, of: &str) -> Option<bool> {
    let id = class(table, name)?;
    let of = class(table, of)?;
    Some(table.is_a(id, of))
}

fn ready_after(table: &mut ClassTable, name: &str, polls: u32) -> Result<(), SchemaErr> {
    let Some(id) = class(table, name) else {
        return Err(SchemaErr::NoParent);
    };
    if polls > 100 {
        return Err(SchemaErr::NoParent);
    }
    table.set_ready(id, Ready::After(polls))
}

fn refused(why: SchemaErr) -> Result<(), AddErr> {
    Err(AddErr::Schema(why))
}

// A table of 12 slots with class A, its child B, and B's child C.
fn three(alloc: Global) -> Result<ClassTable, AllocError> {
    let mut table = ClassTable::new(alloc, 12)?;
    let made = table.add_class(1, "A", "Object") == Ok(ClassId(1))
        && add(&mut table, 2, "A", "n", FieldKind::Int, 1) == Ok(())
        && table.add_class(3, "B", "A") == Ok(ClassId(2))
        && add(&mut table, 4, "B", "r", FieldKind::Ref(OBJECT), 2) == Ok(())
        && add(&mut table, 5, "B", "w", FieldKind::Weak, 1) == Ok(())
        && table.add_class(6, "C", "B") == Ok(ClassId(3));
    if made { Ok(table) } else { Err(AllocError) }
}

#[test]
fn references_lie_upwards_and_all_else_downwards(rt: HostRuntime) {
    let table = three(rt.alloc()).expect(&rt, "memory");
    let int = Field {
        kind: FieldKind::Int,
        first: 11,
        count: 1,
    };
    let reference = Field {
        kind: FieldKind::Ref(OBJECT),
        first: 0,
        count: 2,
    };
    let weak = Field {
        kind: FieldKind::Weak,
        first: 10,
        count: 1,
    };
    for (name, wanted, answer) in [
        ("A", "n", Some(int)),
        ("B", "n", Some(int)),
        ("C", "n", Some(int)),
        ("A", "r", None),
        ("B", "r", Some(reference)),
        ("C", "r", Some(reference)),
        ("B", "w", Some(weak)),
        ("C", "w", Some(weak)),
        ("Object", "n", None),
        ("C", "x", None),
    ] {
        assert!(rt; field(&table, name, wanted) == answer);
    }
    for (name, id, refs, plain) in [
        ("Object", 0, 0, 0),
        ("A", 1, 0, 1),
        ("B", 2, 2, 2),
        ("C", 3, 2, 2),
    ] {
        let made_of = Kind {
            class: ClassId(id),
            refs,
            plain,
            ready: Ready::After(0),
        };
        assert!(rt; kind(&table, name) == Some(made_of));
    }
}

#[test]
fn names_and_ancestors(rt: HostRuntime) {
    let table = three(rt.alloc()).expect(&rt, "memory");
    for (name, id) in [
        ("Object", Some(OBJECT)),
        ("A", Some(ClassId(1))),
        ("C", Some(ClassId(3))),
        ("n", None),
        ("", None),
    ] {
        assert!(rt; table.find_class(name) == id);
    }
    for (name, known) in [
        ("n", true),
        ("r", true),
        ("w", true),
        ("A", false),
        ("x", false),
    ] {
        assert!(rt; table.has_field(name) == known);
    }
    for (name, of, is) in [
        ("A", "A", true),
        ("C", "A", true),
        ("C", "Object", true),
        ("A", "C", false),
        ("Object", "A", false),
    ] {
        assert!(rt; is_a(&table, name, of) == Some(is));
    }
    assert!(rt; table.has_class(ClassId(3)) && !table.has_class(ClassId(4)));
    assert!(rt; table.class_name(OBJECT) == "Object");
}

#[test]
fn refusals_of_classes_and_fields(rt: HostRuntime) {
    let mut table = three(rt.alloc()).expect(&rt, "memory");
    for (name, parent, why) in [
        ("B", "none", SchemaErr::NameTaken(3)),
        ("Object", "none", SchemaErr::NameTaken(0)),
        ("D", "none", SchemaErr::NoParent),
    ] {
        assert!(rt; table.add_class(9, name, parent) == Err(AddErr::Schema(why)));
    }
    for (name, of, count, why) in [
        ("A", "n", 64, SchemaErr::HasChildren),
        ("C", "n", 64, SchemaErr::NameTaken(2)),
        ("C", "w", 1, SchemaErr::NameTaken(5)),
        ("C", "x", 9, SchemaErr::TooManySlots { used: 4, asked: 9 }),
    ] {
        assert!(rt; add(&mut table, 9, name, of, FieldKind::Int, count) == refused(why));
    }
    assert!(rt; !table.has_field("x"));
    assert!(rt; add(&mut table, 9, "C", "x", FieldKind::Int, 8) == Ok(()));
    assert!(rt; ready_after(&mut table, "A", 1) == Err(SchemaErr::HasChildren));
}

#[test]
fn a_child_is_ready_as_its_parent_was(rt: HostRuntime) {
    let mut table = three(rt.alloc()).expect(&rt, "memory");
    assert!(rt; ready_after(&mut table, "C", 3) == Ok(()));
    assert!(rt; table.add_class(7, "D", "C") == Ok(ClassId(4)));
    assert!(rt; ready_after(&mut table, "D", 4) == Ok(()));
    for (name, polls) in [("B", 0), ("C", 3), ("D", 4)] {
        assert!(rt; matches!(kind(&table, name), Some(of) if of.ready == Ready::After(polls)));
    }
}

#[test]
fn fields_fill_64_slots(rt: HostRuntime) {
    let mut table = ClassTable::new(rt.alloc(), 64).expect(&rt, "memory");
    assert!(rt; add(&mut table, 1, "Object", "a", FieldKind::Ref(OBJECT), 63) == Ok(()));
    assert!(rt; add(&mut table, 2, "Object", "b", FieldKind::Weak, 1) == Ok(()));
    let full = SchemaErr::TooManySlots { used: 64, asked: 1 };
    assert!(rt; add(&mut table, 3, "Object", "c", FieldKind::Int, 1) == refused(full));
    let last = Field {
        kind: FieldKind::Weak,
        first: 63,
        count: 1,
    };
    assert!(rt; field(&table, "Object", "b") == Some(last));
}

fn numbered(alloc: Global, number: u32) -> Result<String, AllocError> {
    format!(in alloc; "c{number}")
}

// Adds class `cN` below the class of this name, with an `Int` of the same name.
fn add_link(
    alloc: Global,
    table: &mut ClassTable,
    number: u32,
    parent: &str,
) -> Result<String, AllocError> {
    let name = numbered(alloc, number)?;
    let added = table.add_class(number, name.as_str(), parent) == Ok(ClassId(number))
        && add(
            table,
            number,
            name.as_str(),
            name.as_str(),
            FieldKind::Int,
            1,
        ) == Ok(());
    if added { Ok(name) } else { Err(AllocError) }
}

// A chain of so many classes below `Object`, each with an `Int` of its own.
fn chain(alloc: Global, count: u32) -> Result<ClassTable, AllocError> {
    let mut table = ClassTable::new(alloc, 64)?;
    let mut last = String::from_str(alloc, "Object")?;
    for number in 0..count {
        last = add_link(alloc, &mut table, number + 1, last.as_str())?;
    }
    Ok(table)
}

#[test]
fn a_chain_of_64_classes(rt: HostRuntime) {
    let alloc = rt.alloc();
    let table = chain(alloc, 64).expect(&rt, "memory");
    for number in 1..65 {
        let name = numbered(alloc, number).expect(&rt, "memory");
        let own = Field {
            kind: FieldKind::Int,
            first: 64 - number,
            count: 1,
        };
        assert!(rt; field(&table, "c64", name.as_str()) == Some(own));
        assert!(rt; is_a(&table, "c64", name.as_str()) == Some(true));
        assert!(rt; is_a(&table, name.as_str(), "c64") == Some(number == 64));
    }
}

// Adds classes below `Object` until there are 4,096.
fn fill(alloc: Global, table: &mut ClassTable) -> Result<(), AllocError> {
    for number in 1..4096 {
        let name = numbered(alloc, number)?;
        if table.add_class(number, name.as_str(), "Object") != Ok(ClassId(number)) {
            return Err(AllocError);
        }
    }
    Ok(())
}

#[test]
fn a_table_has_4096_classes(rt: HostRuntime) {
    let alloc = rt.alloc();
    let mut table = ClassTable::new(alloc, 12).expect(&rt, "memory");
    assert!(rt; fill(alloc, &mut table) == Ok(()));
    for (name, parent, why) in [
        ("more", "Object", SchemaErr::TooManyClasses),
        ("more", "none", SchemaErr::NoParent),
        ("c4095", "Object", SchemaErr::NameTaken(4095)),
    ] {
        assert!(rt; table.add_class(9, name, parent) == Err(AddErr::Schema(why)));
    }
    assert!(rt; is_a(&table, "c4095", "Object") == Some(true));
}
