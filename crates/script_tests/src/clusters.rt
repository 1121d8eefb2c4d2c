//! The line that makes a cluster.
use crate::rows::{is_fault, is_script, other, other_than};
use level_script::Cause;
use std::alloc::Global;

// Five lines: two classes, and an object of each.
const START: &str = "class A Object\nclass B A\n0 open\n0 new a A\n0 new b B\n";

// Members get the numbers of their variables: of those that were there, and new ones in the order of the line.
const TEXT: &str =
    "class A Object\nclass B A\n0 open\n0 new a A\n0 cluster c:B a:A d:Object\n0 print d\n0 cluster d:A\n1 open\n1 cluster a:B c:A\n1 root c on\n0 close\n0 open\n0 cluster d:A c:A a:A e:B\n0 print c";

const LINES: &str =
    "3: 0 open|4: 0 new v0 c1|5: 0 cluster v1:c2 v0:c1 v2:c0|6: 0 print v2|7: 0 cluster v2:c1|8: 1 open|9: 1 cluster v0:c2 v1:c1|10: 1 root v1 on|11: 0 close|12: 0 open|13: 0 cluster v2:c1 v1:c1 v0:c1 v3:c2|14: 0 print v1";

#[test]
fn clusters_bind_their_members(rt: HostRuntime) {
    let alloc = rt.alloc();
    assert!(rt; is_script(alloc, TEXT.as_bytes(), LINES, &[4, 2, 0, 0]));
}

const WRONG_WORDS: &str = "\
0 cluster
0 cluster a
0 cluster a:
0 cluster :A
0 cluster a:A b
0 cluster a:A :A
0 cluster a:A b:
0 cluster a: A
0 cluster a :A
0 cluster a:A:B
0 cluster none:A
0 cluster a:A none:A
0 cluster a.f:A
0 cluster 1:A
0 cluster a:1
0 cluster a:A a;A";

// The first fault of the line counts, and of its causes the first: its words, the lane, the frame, names, and then a
// variable that stands twice.
const CAUSES: &str = "\
3 twice: class A Object|0 open|0 cluster a:A a:A
2 twice: 0 open|0 cluster a:Object b:Object a:Object
2 twice: 0 open|0 cluster a:Object b:Object b:Object
3 twice: 0 open|0 new b Object|0 cluster a:Object b:Object b:Object
2 name: 0 open|0 cluster a:Object a:A
2 name: 0 open|0 cluster a:A a:A
2 words: 0 open|0 cluster a:Object a:Object b
1 frame: 0 cluster a:A a:A
1 number: 4 cluster a:A a:A
3 frame: 0 open|0 close|0 cluster a:Object a:Object
2 frame: 0 open|1 cluster a:Object
3 name: 0 open|0 cluster a:Object|0 print b
4 name: 0 open|0 cluster a:Object|1 open|1 print a
5 name: 0 open|0 cluster a:Object|0 close|0 open|0 print a";

#[test]
fn wrong_clusters(rt: HostRuntime) {
    let alloc = rt.alloc();
    assert_eq!(rt; other_than(alloc, START, "6 words", WRONG_WORDS), None);
    assert_eq!(rt; other(alloc, CAUSES), None);
}

// A script of one cluster of so many members, and how it is told; where `twice` is true its last variable is its first.
fn one_cluster(alloc: Global, count: u32, twice: bool) -> Option<(String, String)> {
    let mut script = String::from_str(alloc, "0 open\n0 cluster").ok()?;
    let mut said = String::from_str(alloc, "1: 0 open|2: 0 cluster").ok()?;
    for k in 0..count {
        let last = k.saturating_add(1) == count;
        let var = if twice && last { 0 } else { k };
        let word = format!(in alloc; " m{var}:Object").ok()?;
        script.push_str(word.as_str()).ok()?;
        let word = format!(in alloc; " v{var}:c0").ok()?;
        said.push_str(word.as_str()).ok()?;
    }
    Some((script, said))
}

// Whether a cluster of so many members is read.
fn is_read(alloc: Global, count: u32) -> Option<bool> {
    let (script, said) = one_cluster(alloc, count, false)?;
    Some(is_script(alloc, script.as_bytes(), said.as_str(), &[count, 0, 0, 0]))
}

// Whether one has this cause.
fn is_refused(alloc: Global, count: u32, twice: bool, cause: Cause) -> Option<bool> {
    let (script, _) = one_cluster(alloc, count, twice)?;
    Some(is_fault(alloc, script.as_bytes(), 2, cause))
}

#[test]
fn clusters_have_1_to_1024_members(rt: HostRuntime) {
    let alloc = rt.alloc();
    for count in [1u32, 2, 1023, 1024] {
        assert_eq!(rt; is_read(alloc, count), Some(true));
    }
    assert_eq!(rt; is_refused(alloc, 1025, false, Cause::Words), Some(true));
    assert_eq!(rt; is_refused(alloc, 1024, true, Cause::NameTwice), Some(true));
    assert_eq!(rt; is_refused(alloc, 2, true, Cause::NameTwice), Some(true));
}
