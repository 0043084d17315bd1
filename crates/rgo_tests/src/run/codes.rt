//! Code texts that are run, as tables of calls, worked out by hand from the meaning of their instructions. The place of a trap is the
//! one that its instruction has in the text, after `@`.

/// The code of `x := new(N); fmt.Println(x.v)`.
pub(super) const FIELD: &str = "\
rgo code 1
struct N int *N
func main 0 - -
var *N r0
var *N r0
var int -
entry -[]
0 @76 +[r0] new v0 N -[]
1 @73 +[] copy v1 v0 -[]
2 @98 +[] load v2 v1 0 -[r0]
3 @95 +[] print v2 -[]
4 @101 +[] return -
end
";

/// The same code, and others that differ from it.
pub(super) const OBJECTS: &str = "
> rgo code
rgo code 1
struct N int *N
func main 0 - -
var *N r0
var *N r0
var int -
entry -[]
0 @76 +[r0] new v0 N -[]
1 @73 +[] copy v1 v0 -[]
2 @98 +[] load v2 v1 0 -[r0]
3 @95 +[] print v2 -[]
4 @101 +[] return -
end

< 0

> rgo runcode --stats
rgo code 1
struct N int *N
func main 0 - -
var *N r0
var *N r0
var int -
entry -[]
0 @76 +[r0] new v0 N -[]
1 @73 +[] copy v1 v0 -[]
2 @98 +[] load v2 v1 0 -[r0]
3 @95 +[] print v2 -[]
4 @101 +[] return -
end

< 0
0
!
rgo: regions 1 removed 1 pages 1 returned 1 objects 1 goroutines 1

> rgo runcode --stats // the object is in the region of the package variables, as no compiler would have it
rgo code 1
struct N int *N
func main 0 - -
var *N G
var *N G
var int -
entry -[]
0 @76 +[] new v0 N -[]
1 @73 +[] copy v1 v0 -[]
2 @98 +[] load v2 v1 0 -[]
3 @95 +[] print v2 -[]
4 @101 +[] return -
end

< 0
0
!
rgo: regions 0 removed 0 pages 1 returned 0 objects 1 goroutines 1

> rgo runcode // a nil pointer
rgo code 1
struct N int *N
func main 0 - -
var *N G
var *N G
var int -
entry -[]
0 @76 +[] nil v0 -[]
1 @73 +[] copy v1 v0 -[]
2 @98 +[] load v2 v1 0 -[]
3 @95 +[] print v2 -[]
4 @101 +[] return -
end

< 2
!
rgo: @98: trap 1 NilPointer

> rgo runcode --stats // a nil pointer, and what was made
rgo code 1
struct N int *N
func main 0 - -
var *N G
var *N G
var int -
entry -[]
0 @76 +[] nil v0 -[]
1 @73 +[] copy v1 v0 -[]
2 @98 +[] load v2 v1 0 -[]
3 @95 +[] print v2 -[]
4 @101 +[] return -
end

< 2
!
rgo: regions 0 removed 0 pages 0 returned 0 objects 0 goroutines 1
rgo: @98: trap 1 NilPointer
";

/// A division by zero. A place may be any number below 4294967296.
pub(super) const PLACES: &str = "
> rgo runcode
rgo code 1
func main 0 - -
var int -
var int -
entry -[]
0 @4294967295 +[] int v0 1 -[]
1 @0 +[] int v1 0 -[]
2 @4294967294 +[] bin v0 div v0 v1 -[]
3 @0 +[] return -
end

< 2
!
rgo: @4294967294: trap 3 DivideZero

> rgo runcode
rgo code 1
func main 0 - -
var int -
var int -
entry -[]
0 @4294967295 +[] int v0 1 -[]
1 @0 +[] int v1 0 -[]
2 @0 +[] bin v0 div v0 v1 -[]
3 @0 +[] return -
end

< 2
!
rgo: @0: trap 3 DivideZero
";

/// Other code texts, and texts that are not code texts.
pub(super) const OTHERS: &str = "
> rgo runcode --steps 1000 // a loop without an end
rgo code 1
func main 0 - -
var int -
entry -[]
0 @0 +[] int v0 0 -[]
1 @0 +[] jump 1 -[]
2 @0 +[] return -
end

< 8
!
rgo: steps spent

> rgo runcode // no goroutine sends
rgo code 1
func main 0 - -
var chan.int r0
var int -
entry -[]
0 @0 +[] int v1 0 -[]
1 @0 +[r0] chan v0 v1 -[]
2 @0 +[] recv v1 v0 -[r0]
3 @0 +[] return -
end

< 3
!
rgo: deadlock

> rgo runcode // a function that calls itself
rgo code 1
func f 0 - -
entry -[]
0 @0 +[] call - f() R[] P[] -[]
1 @0 +[] return -
end
func main 0 - -
entry -[]
0 @0 +[] call - f() R[] P[] -[]
1 @0 +[] return -
end

< 7
!
rgo: calls too deep
";
