//! Texts that run or are rejected.
//!
//! `tools/marked_tables.py --table` writes this file from `tools/marked_programs/refusals.calls`.

/// Lines after the head, as a table of calls.
pub(super) const LINES: &str = "
> rgo run
func main() { fmt.Println(\"hi\", 1, true) }
< 0
hi 1 true

> rgo run
func main() {}
< 0

> rgo run
func main() { ; }
< 0

> rgo run
func main() {
\tfmt.Println()
\tfmt.Println(\"a  b\", \"\")
}
< 0

a  b\x20

> rgo run
func main() { fmt.Println(0, 9223372036854775807, false); }
< 0
0 9223372036854775807 false

> rgo run
func main() { // a comment
\tfmt.Println(\"a\tb\", 0x1F, /* two */ 1_000) }
< 0
a\tb 31 1000

> rgo run
func main() { fmt.Println(\"a\",); fmt.Println(2) }
type M struct { }
< 0
a
2

> rgo run
func main() { x := 9223372036854775808 }
< 1
!
rgo: 4:20: lexical 3 BadNumber

> rgo run
func main() { fmt.Print(\"open) }
< 1
!
rgo: 4:25: lexical 5 OpenString

> rgo run
func main() { fmt.Println(1 2) }
< 1
!
rgo: 4:29: syntax

> rgo run
func main() { fmt.Println(1)
< 1
!
rgo: 5:1: syntax

> rgo run
func main() {}
func
< 1
!
rgo: 6:1: syntax
";

/// The same for whole texts.
pub(super) const WHOLE: &str = "
> rgo run
package main
import \"fmt\"
type N struct { v int; p *N }

< 1
!
rgo: 4:1: type 34 NoMain

> rgo run
package main
import (
\t\"fmt\"
)
func main() { fmt.Println(7) }

< 0
7

> rgo run

< 1
!
rgo: 1:1: syntax
";

/// Lines after the head that each command refuses.
pub(super) const BY_ALL: &str = "
> rgo run | rgo check | rgo emit | rgo run -- | rgo check -- | rgo emit --
func main() {
\ts := make([]int, 3)
\tfmt.Println(s[-1])
}
< 1
!
rgo: 6:15: type 27 ConstIndex

> rgo run | rgo check | rgo emit | rgo run -- | rgo check -- | rgo emit --
func main() { x := 1; fmt.Println(x / 0) }
< 1
!
rgo: 4:37: type 26 ConstZeroDivisor

> rgo run | rgo check | rgo emit | rgo run -- | rgo check -- | rgo emit --
func main() { var a, b []int; fmt.Println(a == b) }
< 1
!
rgo: 4:45: type 11 SliceCompare

> rgo run | rgo check | rgo emit | rgo run -- | rgo check -- | rgo emit --
func f() int {
\tfmt.Println(1)
}
func main() {}
< 1
!
rgo: 6:1: type 32 MissingReturn

> rgo run | rgo check | rgo emit | rgo run -- | rgo check -- | rgo emit --
func f() {}
< 1
!
rgo: 5:1: type 34 NoMain

> rgo run | rgo check | rgo emit | rgo run -- | rgo check -- | rgo emit --
var x int
func main() { x := 1; zz() }
< 1
!
rgo: 5:23: type 4 NoSuchName

> rgo run | rgo check | rgo emit | rgo run -- | rgo check -- | rgo emit --
func main() { x := 1 y := 2 }
< 1
!
rgo: 4:22: syntax

> rgo run | rgo check | rgo emit | rgo run -- | rgo check -- | rgo emit --
func main() { x := 9223372036854775808 }
< 1
!
rgo: 4:20: lexical 3 BadNumber
";

/// Code texts with a line that is refused.
pub(super) const CODES: &str = "
> rgo code

< 1
!
rgo: line 1: code text

> rgo code
rgo code 1

< 1
!
rgo: line 2: code 1

> rgo code
rgo code 2

< 1
!
rgo: line 1: code text

> rgo code
rgo code 1
func main 0 - -
entry -[]
end

< 1
!
rgo: line 4: code 1

> rgo code
rgo code 1
func main 0 - -
var []int r0
entry -[]
0 @0 +[r0] nil v0 -[]
1 @0 +[] return -
end

< 1
!
rgo: line 5: code 13

> rgo runcode --stats // a removal is missing: nothing runs
rgo code 1
struct N int *N
func main 0 - -
var *N r0
var *N r0
var int -
entry -[]
0 @76 +[r0] new v0 N -[]
1 @73 +[] copy v1 v0 -[]
2 @98 +[] load v2 v1 0 -[]
3 @95 +[] print v2 -[]
4 @101 +[] return -
end

< 1
!
rgo: line 10: code 13

> rgo runcode // of the rules that are broken, the least
rgo code 1
struct N int *N
func main 0 - -
var *N r0
var *N r0
var int -
entry -[]
0 @76 +[r0] new v0 N -[]
1 @73 +[] copy v1 v0 -[]
2 @98 +[] load v2 v1 1 -[]
3 @95 +[] print v2 -[]
4 @101 +[] return -
end

< 1
!
rgo: line 10: code 2

> rgo runcode // a variable is read before it is written
rgo code 1
struct N int *N
func main 0 - -
var *N r0
var *N r0
var int -
entry -[]
0 @76 +[] jump 1 -[]
1 @73 +[] copy v1 v0 -[]
2 @98 +[] load v2 v1 0 -[r0]
3 @95 +[] print v2 -[]
4 @101 +[] return -
end

< 1
!
rgo: line 7: code 8

> rgo runcode // the first line without form
rgo code 2
struct N int *N
func main 0 - -
var *N r0
var *N r0
var int -
entry -[]
0 @76 +[r0] new v0 N -[]
1 @73 +[] copy v1 v0 -[]
2 @98 +[] load v2 v1 0 -[r0]
3 @95 +[] print v2 -[]
4 @101 +[] return -
end

< 1
!
rgo: line 1: code text

> rgo runcode // the text ends too early
rgo code 1
struct N int *N
func main 0 - -
var *N r0
var *N r0
var int -
entry -[]
0 @76 +[r0] new v0 N -[]
1 @73 +[] copy v1 v0 -[]
2 @98 +[] load v2 v1 0 -[r0]
3 @95 +[] print v2 -[]
4 @101 +[] return -

< 1
!
rgo: line 13: code text

> rgo runcode // no main
rgo code 1
struct N int *N
func mane 0 - -
var *N r0
var *N r0
var int -
entry -[]
0 @76 +[r0] new v0 N -[]
1 @73 +[] copy v1 v0 -[]
2 @98 +[] load v2 v1 0 -[r0]
3 @95 +[] print v2 -[]
4 @101 +[] return -
end

< 1
!
rgo: line 14: code 1

> rgo runcode // a text of Go is not a code text
package main
func main() {}

< 1
!
rgo: line 1: code text

> rgo runcode // no text

< 1
!
rgo: line 1: code text
";
