//! Whole runs of scripts with strong and weak pointers, with the texts that the language gives them. A slash separates
//! lines.

use crate::rows::{Row, is_written};

const ROWS: [Row; 11] = [
    // pairs: one pair for all who ask, and forged ones, which give nothing
    Row {
        words: "play",
        script: "class A Object / 0 open / 0 new a A / 0 weak w a / 0 weak v a / 0 same w v / 0 forge u 0 / 0 same w u / 0 resolve b u / 0 forge u 4000000000 / 0 resolve b u",
        text: "0 open idle / 0 new 0:1 / 0 weak 0:1 / 0 weak 0:1 / 0 same yes / 0 forged / 0 same no / 0 is none / 0 forged / 0 is none",
    },
    // a reused index
    Row {
        words: "play --shape small",
        script: "class A Object / 0 open / 0 new a A / 0 weak w a / 0 new a A / 0 new a A / 0 new a A / 0 new a A / 0 new a A / 0 new a A / 0 new a A / 0 close / gc full / 0 open / 0 new a A / 0 new a A / 0 new a A / 0 new a A / 0 new a A / 0 new a A / 0 new a A / 0 new a A / 0 resolve b w / 0 close",
        text: "0 open idle / 0 new 0:1 / 0 weak 0:1 / 0 new 0:2 / 0 new 0:3 / 0 new 0:4 / 0 new 0:5 / 0 new 0:6 / 0 new 0:7 / 0 new 0:8 / 0 close / gc full removed 8 left 0: 0:1 0:2 0:3 0:4 0:5 0:6 0:7 0:8 / 0 open idle / 0 new 0:9 / 0 new 0:10 / 0 new 0:11 / 0 new 0:12 / 0 new 0:13 / 0 new 0:14 / 0 new 0:15 / 0 new 0:16 / 0 is none / 0 close",
    },
    // serials
    Row {
        words: "play --shape small",
        script: "class A Object / 0 open / 0 new h A / 0 hold 0 h / 0 weak w h / 0 new a A / 0 weak v a / 0 new a A / 0 weak v a / 0 new a A / 0 weak v a / 0 new a A / 0 weak v a / 0 new a A / 0 weak v a / 0 new a A / 0 weak v a / 0 new a A / 0 weak v a / 0 close / gc full / 0 open / 0 new a A / 0 weak v a / 0 held h 0 / 0 weak v h",
        text: "0 open idle / 0 new 0:1 / 0 was none / 0 weak 0:1 / 0 new 0:2 / 0 weak 0:2 / 0 new 0:3 / 0 weak 0:3 / 0 new 0:4 / 0 weak 0:4 / 0 new 0:5 / 0 weak 0:5 / 0 new 0:6 / 0 weak 0:6 / 0 new 0:7 / 0 weak 0:7 / 0 new 0:8 / 0 weak 0:8 / 0 close / gc full removed 7 left 0: 0:2 0:3 0:4 0:5 0:6 0:7 0:8 / 0 open idle / 0 new 0:9 / 0 serials spent 8 / 0 is 0:1 / 0 weak 0:1",
    },
    // fields
    Row {
        words: "play",
        script: "class A Object / class B A / field B n int / field B r ref B 2 / field B w weak / 0 open / 0 new a A / 0 new b B / 0 put a.n 5 / 0 put b.n 5 / 0 put b.r 5 / 0 set b.r[2] b / 0 set b.r[1] a / 0 set b.r[1] b / 0 get c b.r / 0 put c.n 1 / 0 set b.r c / 0 print b / 0 load w b.w / 0 weak v b / 0 store b.w v / 0 load w b.w / 0 same v w / 0 take b.n",
        text: "0 open idle / 0 new 0:1 / 0 new 0:2 / 0 no field / 0 was 0 / 0 wrong kind / 0 no element / 0 wrong class / 0 was none / 0 is none / 0 none / 0 was none / 0 object 0:2 B / 0 is none / 0 weak 0:2 / 0 was none / 0 is weak / 0 same yes / 0 is 5",
    },
    // a strong pointer keeps its object and what that refers to, until the lane writes it again; its old value is told
    Row {
        words: "play",
        script: "class A Object / field A next ref A / 0 open / 0 new a A / 0 new b A / 0 set a.next b / 0 hold 3 a / 0 hold 63 b / 0 close / gc full / 0 open / 0 held x 3 / 0 get y x.next / 0 hold 63 none / 0 held z 63 / 0 close / gc full / 0 open / 0 hold 3 none / 0 close / gc full",
        text: "0 open idle / 0 new 0:1 / 0 new 0:2 / 0 was none / 0 was none / 0 was none / 0 close / gc full removed 0 left 0 / 0 open idle / 0 is 0:1 / 0 is 0:2 / 0 was 0:2 / 0 is none / 0 close / gc full removed 0 left 0 / 0 open idle / 0 was 0:1 / 0 close / gc full removed 2 left 0: 0:1 0:2",
    },
    // each lane has its own strong pointers; the value of `hold` may be a variable that stands for none
    Row {
        words: "play",
        script: "class A Object / 0 open / 1 open / 0 new a A / 1 new b A / 0 hold 0 a / 1 hold 0 b / 1 held c 1 / 1 hold 0 c / 0 close / 1 close / gc full",
        text: "0 open idle / 1 open idle / 0 new 0:1 / 1 new 1:1 / 0 was none / 1 was none / 1 is none / 1 was 1:1 / 0 close / 1 close / gc full removed 1 left 0: 1:1",
    },
    // a weak pointer keeps nothing; a weak variable lasts beyond its frame, and serves all lanes
    Row {
        words: "play",
        script: "class A Object / 0 open / 0 new a A / 0 new b A / 0 root a on / 0 weak v a / 0 weak w b / 0 close / 1 open / 1 resolve x v / 1 resolve y w / 1 close / gc full / 1 open / 1 resolve x v / 1 resolve y w / 1 print y / 1 close",
        text: "0 open idle / 0 new 0:1 / 0 new 0:2 / 0 was off / 0 weak 0:1 / 0 weak 0:2 / 0 close / 1 open idle / 1 is 0:1 / 1 is 0:2 / 1 close / gc full removed 1 left 0: 0:2 / 1 open idle / 1 is 0:1 / 1 is none / 1 none / 1 close",
    },
    // what stood in a weak field is told by its serial; `none` stores the empty pair, and a forged pair has a serial
    Row {
        words: "play",
        script: "class A Object / field A w weak 2 / 0 open / 0 new a A / 0 weak v a / 0 store a.w[1] v / 0 store a.w[1] none / 0 store a.w[1] none / 0 forge u 7 / 0 store a.w u / 0 load t a.w / 0 same t u / 0 forge u 8 / 0 same t u / 0 load t a.w[1] / 0 resolve x t / 0 store a.w t / 0 load t a.w",
        text: "0 open idle / 0 new 0:1 / 0 weak 0:1 / 0 was none / 0 was weak / 0 was none / 0 forged / 0 was none / 0 is weak / 0 same yes / 0 forged / 0 same no / 0 is none / 0 is none / 0 was weak / 0 is none",
    },
    // a line that is refused gives its weak variable the empty pair
    Row {
        words: "play",
        script: "class A Object / field A w weak / field A n int / 0 open / 0 new a A / 0 weak v a / 0 held none_yet 0 / 0 weak v none_yet / 0 resolve x v / 0 weak v a / 0 load v a.n / 0 resolve x v / 0 weak v a / 0 load v a.w[1] / 0 resolve x v / 0 weak v a / 0 load v none_yet.w / 0 resolve x v / 0 store a.n v / 0 take a.w / 0 put a.w 1",
        text: "0 open idle / 0 new 0:1 / 0 weak 0:1 / 0 is none / 0 none / 0 is none / 0 weak 0:1 / 0 wrong kind / 0 is none / 0 weak 0:1 / 0 no element / 0 is none / 0 weak 0:1 / 0 none / 0 is none / 0 wrong kind / 0 wrong kind / 0 wrong kind",
    },
    // `forge` and `same` need no open frame
    Row {
        words: "play",
        script: "0 forge u 0 / 1 forge v 0 / 1 same u v / 2 forge v 4294967295 / 3 same v u",
        text: "0 forged / 1 forged / 1 same yes / 2 forged / 3 same no",
    },
    // a missile whose target dies
    Row {
        words: "play",
        script: "class Ship Object / class Missile Object / field Missile target weak / 0 open / 0 new enemy Ship / 0 hold 0 enemy / 0 new missile Missile / 0 hold 1 missile / 0 weak lock enemy / 0 store missile.target lock / 0 close / gc full / 0 open / 0 held missile 1 / 0 load lock missile.target / 0 resolve enemy lock / 0 hold 0 none / 0 close / gc full / 0 open / 0 held missile 1 / 0 load lock missile.target / 0 resolve enemy lock / 0 close",
        text: "0 open idle / 0 new 0:1 / 0 was none / 0 new 0:2 / 0 was none / 0 weak 0:1 / 0 was none / 0 close / gc full removed 0 left 0 / 0 open idle / 0 is 0:2 / 0 is weak / 0 is 0:1 / 0 was 0:1 / 0 close / gc full removed 1 left 0: 0:1 / 0 open idle / 0 is 0:2 / 0 is weak / 0 is none / 0 close",
    },
];

#[test]
fn strong_and_weak_pointers(rt: HostRuntime) {
    for row in ROWS {
        assert_eq!(rt; is_written(&rt, rt.alloc(), row), Some(true));
    }
}
