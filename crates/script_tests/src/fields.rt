//! Lines on the fields of objects: `field` in the header, and the lines of a lane that have a spot.
use crate::rows::{is_empty, is_script, other, other_than, read};
use class_schema::{Field, FieldKind};
use level_script::Script;
use std::alloc::{AllocError, Global};
use world_model::ClassId;

// Five lines: a class with two references and a number, and an object of it.
const START: &str = "class A Object\nfield A f ref A 2\nfield A n int\n0 open\n0 new a A\n";

// The field of a class, both by name.
fn field(script: &Script, class: &str, name: &str) -> Option<Field> {
    let id = script.classes.find_class(class)?;
    script.classes.find_field(id, name)
}

fn slots(kind: FieldKind, first: u32, count: u32) -> Option<Field> {
    Some(Field { kind, first, count })
}

#[test]
fn fields_of_three_kinds(rt: HostRuntime) {
    let text =
        "class A Object\nclass B A\nfield B n int\nfield B r ref B 2\n\nfield  B\tw weak\nfield B m int 03\nfield B q ref A 1";
    let script = read(rt.alloc(), text.as_bytes()).expect(&rt, "a script");
    for (name, want) in [
        ("n", slots(FieldKind::Int, 11, 1)),
        ("r", slots(FieldKind::Ref(ClassId(2)), 0, 2)),
        ("w", slots(FieldKind::Weak, 10, 1)),
        ("m", slots(FieldKind::Int, 9, 3)),
        ("q", slots(FieldKind::Ref(ClassId(1)), 2, 1)),
        ("x", None),
    ] {
        assert!(rt; field(&script, "B", name) == want, "the field {name}");
    }
    assert!(rt; field(&script, "A", "n").is_none());
    assert!(rt; script.lines.as_slice().is_empty());
}

const COUNTS: &str = "\
2 number: class A Object|field A x int 0
2 number: class A Object|field A x weak 00
2 number: class A Object|field A x int 65
2 number: class A Object|field A x ref A 65
2 number: class A Object|field A x int 18446744073709551615
2 number: class A Object|field A x int 18446744073709551616
2 number: class A Object|field A x int 18446744073709551617
2 number: class A Object|field A x int 000000000000000000001
1 number: field A x int 0
1 number: field A x ref B 65
3 number: class A Object|class B A|field A x int 65";

const SLOTS: &str = "\
2 slots 0 13: class A Object|field A f ref A 13
2 slots 0 64: class A Object|field A f int 64
1 slots 0 13: field Object f weak 13
3 slots 10 3: class A Object|field A f ref A 10|field A g int 3
4 slots 12 1: class A Object|field A f weak 12|class B A|field B g ref B";

#[test]
fn counts_of_elements(rt: HostRuntime) {
    let alloc = rt.alloc();
    for text in [
        "class A Object\nfield A x int 1",
        "class A Object\nfield A x int 12",
        "class A Object\nfield A x weak 00000000000000000012",
        "class A Object\nfield A x ref A 6\nfield A y int 6",
        "field Object x int 12",
    ] {
        assert!(rt; is_empty(alloc, text.as_bytes()), "{text}");
    }
    assert_eq!(rt; other(alloc, COUNTS), None);
    assert_eq!(rt; other(alloc, SLOTS), None);
}

const WRONG_FIELDS: &str = "\
1 words: field
1 words: field A
1 words: field A x
1 words: field A x re A
1 words: field A x Int
1 words: field A x refs A
1 words: field A x weak A
1 words: field A x ref 1A
1 words: field A x ref 2 A
1 words: field A x int -1
1 words: field A x int +1
1 words: field A x int 1x
1 words: field 1A x int
1 words: field A 1x int
1 words: field A x.y int
1 words: field A x[1] int
1 words: field A x: int
1 name: field A x int
1 name: field A x int 64
2 name: class A Object|field A x ref B
2 name: class A Object|field a x int
1 name: field A x ref A|class A Object
3 name: class A Object|class B A|field A x ref C
2 command: 0 open|field A x int
2 command: gc full|field A x int
3 command: class A Object|0 open|field A x int
2 command: 0 open|field
1 command: 0 field A x int
1 command: gc field A x int
3 taken 2: class A Object|field A x int|field A x weak
3 taken 2: class A Object|field A x int|field A x ref A 64
4 taken 2: class A Object|field A x int|class B A|field B x int
3 children: class A Object|class B A|field A x int
4 children: class A Object|field A x int|class B A|field A x int 64
2 children: class A Object|field Object x int";

#[test]
fn wrong_fields(rt: HostRuntime) {
    assert_eq!(rt; other(rt.alloc(), WRONG_FIELDS), None);
}

// Lines that follow the five, each with what it says.
const SAID: &str = "\
0 take a.n = take v0.f1[0]
0 take a.n[0] = take v0.f1[0]
0 take a.f[1] = take v0.f0[1]
00\t take \ta.f[0000000001]\t\r| = take v0.f0[1]
0 take a.f[63] = take v0.f0[63]
0 take a.f[4294967295] = take v0.f0[4294967295]
0 take a.f[00000000000000000000] = take v0.f0[0]
0 put a.n 0 = put v0.f1[0] 0
0 put a.n 00 = put v0.f1[0] 0
0 put a.n 00000000000000000007 = put v0.f1[0] 7
0 put a.n 18446744073709551615 = put v0.f1[0] 18446744073709551615
0 put a.n 09223372036854775808 = put v0.f1[0] 9223372036854775808
0 put a.f 5 = put v0.f0[0] 5
0 set a.f a = set v0.f0[0] v0
0 set a.f none = set v0.f0[0] none
0 set a.n[0] a = set v0.f1[0] v0
0 set a.f[1] none = set v0.f0[1] none
0 get b a.f = get v1 v0.f0[0]
0 get a a.f = get v0 v0.f0[0]
0 get b a.f[1] = get v1 v0.f0[1]
0 print a = print v0";

// Whether the line follows the five, and says this.
fn says(alloc: Global, line: &str, want: &str) -> Result<bool, AllocError> {
    let mut input = String::from_str(alloc, START)?;
    let line = line.replace(alloc, '|', "\n")?;
    input.push_str(line.as_str())?;
    let lines = format!(in alloc; "4: 0 open|5: 0 new v0 c1|6: 0 {want}")?;
    let vars = if want.starts_with("get v1") { 2 } else { 1 };
    Ok(is_script(alloc, input.as_bytes(), lines.as_str(), &[vars, 0, 0, 0]))
}

#[test]
fn commands_with_spots(rt: HostRuntime) {
    for row in SAID.split('\n') {
        let (line, want) = row.split_once(" = ").unwrap_or(("", ""));
        assert!(rt; says(rt.alloc(), line, want) == Ok(true), "{row}");
    }
}

#[test]
fn numbers_of_variables_and_fields(rt: HostRuntime) {
    let text =
        "class A Object\nfield A n int\nfield A f ref A\nclass B Object\nfield B g weak\n0 open\n1 open\n0 new a A\n1 new x B\n0 get b a.f\n0 put b.n 1\n1 take x.g\n0 set a.f b\n0 get a b.f\n0 take a.g\n0 close\n0 open\n0 new b A\n0 print b\n0 get c b.f\n0 set c.f c";
    let lines =
        "6: 0 open|7: 1 open|8: 0 new v0 c1|9: 1 new v0 c2|10: 0 get v1 v0.f1[0]|11: 0 put v1.f0[0] 1|12: 1 take v0.f2[0]|13: 0 set v0.f1[0] v1|14: 0 get v0 v1.f1[0]|15: 0 take v0.f2[0]|16: 0 close|17: 0 open|18: 0 new v1 c1|19: 0 print v1|20: 0 get v2 v1.f1[0]|21: 0 set v2.f1[0] v2";
    let alloc = rt.alloc();
    assert!(rt; is_script(alloc, text.as_bytes(), lines, &[3, 1, 0, 0]));
    let script = read(alloc, text.as_bytes()).expect(&rt, "a script");
    for (number, want) in [(0, Some("n")), (1, Some("f")), (2, Some("g")), (3, None)] {
        assert!(rt; script.fields.get(number) == want, "the field {number}");
    }
}

const WRONG_SPOTS: &str = "\
0 take a
0 take .
0 take a.
0 take .n
0 take a..n
0 take a.n.
0 take a.n.n
0 take a .n
0 take a. n
0 take 1a.n
0 take a.1n
0 take a-.n
0 take a.n-
0 take a:n
0 take a.n[
0 take a.n]
0 take a.n[]
0 take a.n[1
0 take a.n1]
0 take a.n[1]]
0 take a.n[[1]
0 take a.n[[1]]
0 take a.n[1][2]
0 take a.n[1]x
0 take a.n[1].n
0 take a.n[x]
0 take a.n[-1]
0 take a.n[+1]
0 take a.n[0x1]
0 take a.n[1 ]
0 take a.n [1]
0 take a.n(1)
0 take a.[1]
0 take a[1].n
0 take a[1]
0 take [1]
0 take a.n,1
0 take none.n
0 take 0.n
0 get b a
0 get b a.f[
0 get b .f
0 set a a
0 set a.f[ a
0 set a.f[] none
0 put a 1
0 put a.n[ 1
0 put .n 1
9 take a.
0 take b.n[
0 take a.zzz[x]";

const WRONG_WORDS: &str = "\
0 set a.f 1
0 set a.f a.f
0 set a.f a-
0 set a.f None a
0 set none a
0 set a a.f
0 get 1 a.f
0 get none a.f
0 get a.f a
0 get b a.f a
0 put a.n -1
0 put a.n +1
0 put a.n 1x
0 put a.n 0x1
0 put a.n 1.0
0 put a.n a
0 put 1 a.n
0 take 1
0 print 1
0 print a.n
0 print a-";

const WRONG_NUMBERS: &str = "\
0 take a.n[4294967296]
0 take a.n[18446744073709551616]
0 take a.n[000000000000000000000]
0 set a.f[4294967296] none
0 set a.f[4294967296] b
0 get b a.f[4294967296]
0 put a.n[4294967296] 1
0 put a.n 18446744073709551616
0 put a.n 18446744073709551617
0 put a.n 99999999999999999999
0 put a.n 000000000000000000000
0 put a.n 100000000000000000000
0 put b.x 18446744073709551616
1 take a.n[4294967296]
1 put a.n 18446744073709551616
4 take a.n
9 set a.f none
9 get b a.f
9 put a.n 1
9 print a
18446744073709551616 print b";

const WRONG_FRAMES: &str = "\
1 take a.n
1 set a.f none
1 set a.f a
1 get b a.f
1 put a.n 1
1 print a
1 take b.x";

const WRONG_NAMES: &str = "\
0 take b.n
0 take A.n
0 take a.x
0 take a.N
0 take a.a
0 take a.none
0 set b.f none
0 set a.x none
0 set a.f b
0 set a.f None
0 set b.f b
0 get b b.f
0 get b a.x
0 get a b.f
0 put b.n 1
0 put a.x 1
0 print b";

#[test]
fn wrong_commands_with_spots(rt: HostRuntime) {
    let alloc = rt.alloc();
    assert_eq!(rt; other_than(alloc, START, "6 words", WRONG_SPOTS), None);
    assert_eq!(rt; other_than(alloc, START, "6 words", WRONG_WORDS), None);
    assert_eq!(rt; other_than(alloc, START, "6 number", WRONG_NUMBERS), None);
    assert_eq!(rt; other_than(alloc, START, "6 frame", WRONG_FRAMES), None);
    assert_eq!(rt; other_than(alloc, START, "6 name", WRONG_NAMES), None);
}

const ENDED: &str = "\
8 name: class A Object|field A f ref A|0 open|0 new a A|0 get b a.f|0 close|0 open|0 print b
9 name: class A Object|field A f ref A|0 open|0 new a A|0 get b a.f|0 close|0 open|0 new a A|0 set a.f b
7 name: class A Object|field A f ref A|0 open|0 new a A|0 close|0 open|0 take a.f
6 name: class A Object|field A f ref A|0 open|1 open|0 new a A|1 get b a.f
7 name: class A Object|field A f ref A|0 open|1 open|0 new a A|1 new b A|1 set b.f a
9 name: class A Object|field A f ref A|0 open|1 open|0 new a A|1 new b A|0 get b a.f|1 print b|1 print a";

#[test]
fn variables_end_with_their_frame(rt: HostRuntime) {
    assert_eq!(rt; other(rt.alloc(), ENDED), None);
}
