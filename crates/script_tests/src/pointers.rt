//! The lines of a lane on strong and weak pointers.
use crate::rows::{is_script, other, other_than, read};

// Five lines: a class with a weak pointer and a reference, and an object of it.
const START: &str = "class A Object\nfield A p weak 2\nfield A f ref A\n0 open\n0 new a A\n";

// Every command, an object variable and a weak variable of one name, and a weak variable that outlives a frame.
const TEXT: &str =
    "class A Object\nfield A p weak 2\n0 forge u 4294967295\n0 open\n0 new a A\n0 weak a a\n0 hold 63 a\n0 hold 0 none\n0 held b 63\n0 store a.p[1] a\n0 store a.p none\n0 load w a.p\n0 resolve c w\n0 same a u\n0 close\n1 same w u\n1 open\n1 resolve a a\n0 forge u 0";

const LINES: &str =
    "3: 0 forge w0 4294967295|4: 0 open|5: 0 new v0 c1|6: 0 weak w1 v0|7: 0 hold 63 v0|8: 0 hold 0 none|9: 0 held v1 63|10: 0 store v0.f0[1] w1|11: 0 store v0.f0[0] none|12: 0 load w2 v0.f0[0]|13: 0 resolve v2 w2|14: 0 same w1 w0|15: 0 close|16: 1 same w2 w0|17: 1 open|18: 1 resolve v0 w1|19: 0 forge w0 0";

#[test]
fn commands_of_pointers(rt: HostRuntime) {
    let alloc = rt.alloc();
    assert!(rt; is_script(alloc, TEXT.as_bytes(), LINES, &[3, 1, 0, 0]));
    let script = read(alloc, TEXT.as_bytes()).expect(&rt, "a script");
    assert_eq!(rt; script.weaks, 3);
}

const WRONG_WORDS: &str = "\
0 hold
0 hold 0
0 hold 0 a x
0 hold a a
0 hold none a
0 hold 0 1
0 held a
0 held a 0 x
0 held none 0
0 held a b
0 weak w
0 weak w a x
0 weak none a
0 weak w none
0 resolve b
0 resolve b w x
0 resolve none w
0 resolve b none
0 forge w
0 forge w 1 x
0 forge none 1
0 forge w x
0 forge w -1
0 same w
0 same w v x
0 same none w
0 same w none
0 store a.p
0 store a.p w x
0 store a w
0 store none w
0 store a.p 1
0 load w
0 load w a.p x
0 load none a.p
0 load w a";

// Numbers before frames and names: none of these variables is bound.
const WRONG_NUMBERS: &str = "\
1 number: 0 hold 64 a
1 number: 0 hold 4294967296 none
1 number: 0 hold 18446744073709551616 none
1 number: 0 held a 64
1 number: 0 forge w 4294967296
1 number: 0 forge w 18446744073709551616
1 number: 0 store a.p[4294967296] w
1 number: 0 load w a.p[4294967296]
1 number: 4 forge w 0
1 number: 4 same w w";

// Frames before names. `forge` and `same` need none.
const WRONG_FRAMES: &str = "\
1 frame: 0 hold 63 none
1 frame: 0 hold 0 a
1 frame: 0 held a 63
1 frame: 0 weak w a
1 frame: 0 resolve a w
1 frame: 0 store a.p none
1 frame: 0 load w a.p
1 name: 0 same w w
2 name: 0 forge w 0|0 same w v
2 name: 0 forge w 0|0 same v w
3 frame: 0 open|0 close|0 hold 0 none";

const WRONG_NAMES: &str = "\
0 hold 0 b
0 weak w b
0 resolve b w
0 store a.p w
0 store b.p none
0 store a.q none
0 load w b.p
0 load w a.q
0 same a a
0 same w w";

// A weak variable is no object variable, and the other way round.
const OTHER_NAMES: &str = "\
3 name: 0 forge w 0|0 open|0 print w
3 name: 0 forge w 0|0 open|0 hold 0 w
3 name: 0 open|0 new v Object|0 same v v
3 name: 0 open|0 new v Object|0 resolve u v
4 frame: 0 open|0 held v 0|0 close|0 hold 0 v
2 frame: 0 open|1 hold 0 v";

#[test]
fn wrong_commands_of_pointers(rt: HostRuntime) {
    let alloc = rt.alloc();
    assert_eq!(rt; other_than(alloc, START, "6 words", WRONG_WORDS), None);
    assert_eq!(rt; other(alloc, WRONG_NUMBERS), None);
    assert_eq!(rt; other(alloc, WRONG_FRAMES), None);
    assert_eq!(rt; other_than(alloc, START, "6 name", WRONG_NAMES), None);
    assert_eq!(rt; other(alloc, OTHER_NAMES), None);
}
