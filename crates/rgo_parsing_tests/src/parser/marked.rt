//! Texts with a mark before the lexeme that is refused: `@`, or `$` if the end is refused. A `~`
//! means a newline.

/// Bodies of `main`, between its braces.
pub(super) const BODIES: &str = "\
x\n\
x := 1\n\
x := 1; y := 2\n\
x := 1 @y := 2\n\
a @b\n\
x@, y := 1, 2\n\
x = 1\n\
x += 1; x -= 1; x *= 2; x /= 2; x %= 3\n\
x @<<= 1\n\
x++\n\
x--\n\
x++ @y\n\
@++}\n\
c <- 1\n\
c <- <-d\n\
<-c\n\
x = <-c\n\
x <- @}\n\
f()\n\
f(1)\n\
f(1, 2)\n\
f(1, 2,)\n\
f(@,\n\
f(@, 1)\n\
f(1 @2)\n\
f(g(1), h(2)(3))\n\
p.x\n\
p.x.y = 1\n\
p.@1\n\
p[0]\n\
p[0][1] = 2\n\
p[@]\n\
p[1 @: 2]\n\
(x)\n\
(x) @:= 1\n\
(@)\n\
((x))\n\
-x\n\
- -x\n\
!x\n\
+x\n\
!!x\n\
a + b\n\
a + b * c - d / e % f\n\
a == b\n\
a == b != c\n\
a < b && c <= d || e > f && g >= h\n\
a && @&& b\n\
a + @* b\n\
a @& b\n\
a @| b\n\
a @^ b\n\
&N{}\n\
&N{1}\n\
&N{1, 2}\n\
&N{1, 2,}\n\
&N{a: 1}\n\
&N{a: 1, b: 2}\n\
&N{a: 1, b: 2,}\n\
&N{a: 1, @2}\n\
&N{a: 1, b@}\n\
&N{1, a@: 2}\n\
&N{a, b}\n\
&N{a.b@: 1}\n\
&N{@,\n\
&N{1}@.v\n\
&N @\n\
&@1\n\
(&N{1}).v\n\
new(N)\n\
new @:= 1\n\
new(@1)\n\
new @x\n\
x := new @\n\
make([]int, 3)\n\
make([]int, 3,)\n\
make([]int@)\n\
make([]*N, n + 1)\n\
make(chan int)\n\
make(chan int,)\n\
make(chan int, 3)\n\
make(chan int, 3,)\n\
make(chan [][]*N, 3)\n\
make(@int)\n\
make([]int@{})\n\
make @:= 1\n\
var x int\n\
var x, y int\n\
var x int = 1\n\
var x = 1\n\
var x, y @= 1\n\
var x  @\n\
var x, y int @= 1\n\
var (x int; y = 1; z bool = true)\n\
var ()\n\
var (x int;)\n\
var (x int @y int)\n\
var @1\n\
var @new int\n\
var x *N\n\
var x []chan *N\n\
var x chan chan @\n\
return\n\
return 1\n\
return a + b\n\
return 1 @2\n\
return@)\n\
break\n\
continue\n\
break @x\n\
go f()\n\
go f(1, 2,)\n\
go @(f)()\n\
go f @\n\
go f@.g()\n\
go @func\n\
{}\n\
{ x }\n\
{ x; }\n\
{ ; }\n\
;\n\
;;\n\
{ { } }\n\
{ x }; y\n\
{ x } @y\n\
if x { }\n\
if x { y }\n\
if x == 1 { } else { }\n\
if x { } else if y { } else { }\n\
if x { } else @y\n\
if x := 1; x == 1 { }\n\
if ; x { }\n\
if x = 1; x == 1 { }\n\
if x++; x == 1 { }\n\
if f(); x { }\n\
if c <- 1; x { }\n\
if x := 1 @{ }\n\
if x = 1 @{ }\n\
if x++ @{ }\n\
if @{ }\n\
if ; @{ }\n\
if x; @{ }\n\
if x @else { }\n\
if x := @&N{} { }\n\
if @&N{} { }\n\
if x == @&N{} { }\n\
if f(&N{}) { }\n\
if (&N{}) == p { }\n\
if p[&N{}@.x] { }\n\
if x { } @if y { }\n\
for { }\n\
for x { }\n\
for x < 1 { }\n\
for i := 0; i < 3; i++ { }\n\
for i := 0; ; i++ { }\n\
for ; ; { }\n\
for ; x; { }\n\
for ;; x = 1 { }\n\
for i := 0; i < 3; i @:= 1 { }\n\
for i := 0; i < 3; { }\n\
for i := 0; i < 3 @{ }\n\
for i := 0 @{ }\n\
for i = 0 @{ }\n\
for x; @{ }\n\
for x; y @{ }\n\
for x; y; z { }\n\
for x; y; z @; { }\n\
for @range x { }\n\
for @&N{} { }\n\
for f(&N{}) { }\n\
for ; f(&N{}); g(&N{}) { }\n\
for { break; continue }\n\
@else { }\n\
@)\n\
@]\n\
@case\n\
@switch x { }\n\
@defer f()\n\
x @...\n\
x @:\n\
@func() { }\n\
@type T struct { }\n\
@import \"a\"\n\
x = \"a\"\n\
x = 1 + \"a\"\n\
fmt.Println(\"hi\", 1, true)\n\
fmt.@(x)\n\
a[b].c(d).e[f]\n\
-a.b(c)[d] * !e\n\
<-c + <-d\n\
x = -1 - @\n\
f(x @= 1)\n\
f(x @:= 1)\n\
f(x@++)\n\
return (1 +@)\n\
";

/// Whole texts.
pub(super) const TEXTS: &str = "\
$\n\
@x\n\
package $\n\
package @x\n\
package @\"main\"\n\
package main\n\
package main;\n\
package main; import$\n\
package main; import \"fmt\"\n\
package main; import \"fmt\";\n\
package main; import ()\n\
package main; import (\"a\"; \"b\")\n\
package main; import (\"a\"; \"b\";)\n\
package main; import (\"a\" @\"b\")\n\
package main; import @x\n\
package main; import @x \"a\"\n\
package main; import \"a\" @import \"b\"\n\
package main; import \"a\"; import \"b\"\n\
package main; var x int; @import \"a\"\n\
package main; @x\n\
package main; @;\n\
package main; @if\n\
package main; type N struct { }\n\
package main; type N struct { };\n\
package main; type N struct { v int }\n\
package main; type N struct { v int; }\n\
package main; type N struct { v, w int; p *N; }\n\
package main; type N struct { v int @w int }\n\
package main; type N struct { v @}\n\
package main; type N struct { @; }\n\
package main; type N @int\n\
package main; type N @= int\n\
package main; type @struct\n\
package main; type ()\n\
package main; type (A struct { }; B struct { })\n\
package main; type (A struct { } @B struct { })\n\
package main; type @new struct { }\n\
package main; var x int\n\
package main; var x, y []int\n\
package main; var ()\n\
package main; var (x int; y bool;)\n\
package main; var x int @= 1\n\
package main; var x @= 1\n\
package main; var x, int@\n\
package main; var @func\n\
package main; func f() { }\n\
package main; func main() { }\n\
package main; func f(a int) { }\n\
package main; func f(a int, b bool) { }\n\
package main; func f(a int, b bool,) { }\n\
package main; func f(a, b int, c *N) int { }\n\
package main; func f(a, b int,@,) { }\n\
package main; func f(a@) { }\n\
package main; func f(@,) { }\n\
package main; func f(a int @b int) { }\n\
package main; func f() []int { return x }\n\
package main; func f() chan []*N { }\n\
package main; func f() @(int) { }\n\
package main; func @(x N) f() { }\n\
package main; func f() { } @func g() { }\n\
package main; func f() { }; func g() { }; var x int; type N struct { }\n\
package main; func f()@; { }\n\
package main; func @make() { }\n\
package main; func f() int @int { }\n\
package main; func f() { $\n\
package main; func f() { x $\n\
package main; func f() { if x { $\n\
package main; func f() { f( $\n\
package main; func f() { x := $\n\
package main; func f() { x := (1 + 2@\n\
package main; func main() { main() }\n\
package main; var main int\n\
package main; type main struct { main main }\n\
package main~func main() {~}~\n\
package main~func main()@~{~}~\n\
package main~import \"fmt\"~type N struct { v int; p *N }~func main() { fmt.Println(\"hi\", 1, true) }~\n\
package main~func main() {~\tx := 1~\ty := 2~}~\n\
package main~func main() {~\tif x {~\t}~\t@else {~\t}~}~\n\
package main~func main() {~\tif x {~\t} else {~\t}~}~\n\
package main~func main() {~\tf(~\t\t1,~\t\t2,~\t)~}~\n\
package main~func main() {~\tf(~\t\t1,~\t\t2@~\t)~}~\n\
package main~func main() {~\tx := &N{~\t\ta: 1,~\t}~}~\n\
package main~func main() {~\tx := &N{~\t\ta: 1@~\t}~}~\n\
package main~func main() {~\tx := a +~\t\tb~}~\n\
package main~func main() {~\tx := a~\t\t+ b~}~\n\
package main~func main() {~\tx := a~\t\t@/ b~}~\n\
package main~func main() {~\tfor i := 0; i < 3; i++@~\t{~\t}~}~\n\
package main~func main() {~\treturn~\t1~}~\n\
package main~func main() {~\tx.~\t\ty()~}~\n\
package main~func main() {~\tx~\t\t@.y()~}~\n\
package main~var (~\tx int~\ty bool~)~func main() {}~\n\
package main~import (~\t\"fmt\"~)~func main() {}~\n\
";
